// The numbers of a job that the plain search and the plain count need.
ghost use Rattle.std.specs.Prelude.{◌<◌};

// How many world states and kinds of lamp a job has, its first program state and its highest kind of end.
#[derive(Clone, Copy)]
pub struct Shape {
    pub worlds: u8,
    pub kinds: u8,
    pub first: u8,
    pub ends: u8,
    ghost has_worlds: { 0 < worlds },
    ghost has_kinds: { 0 < kinds },
}

// The numbers in the first bytes of a file. No job has 0 world states or 0 kinds of lamp: 1 stands in their place, and for a file that is too short.
pub fn shape_of(file: &[u8]) -> Shape {
    match file {
        [_, worlds, kinds, _, _, first, ends, ..] => Shape {
            worlds: (*worlds).max(1),
            kinds: (*kinds).max(1),
            first: *first,
            ends: *ends,
        },
        _ => Shape {
            worlds: 1,
            kinds: 1,
            first: 0,
            ends: 0,
        },
    }
}
