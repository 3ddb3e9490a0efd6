// The bytes of the job file of bench line G (01, "Bench line G") and of its variant with five states: the jobs of the theorem, with which the
// test programs compare theirs.
#![tactic(auto)]

ghost use Rattle.std.specs.Prelude.{◌≡◌, length};
ghost use Rattle.bench_line.specs.BenchJobs.{G, G_five};

// Bench line G itself.
pub fn bench() -> [u8; 128]
    ensures bytes { result ≡ G }
    ensures size { 128 ≡ length result }
{
    [
        4, 3, 2, 2, 4, 0, 0, 0, 28, 0, 4, 0, 32, 0, 72, 0, 104, 0, 3, 0, 107, 0, 9, 0, 116, 0, 12,
        0, 0, 0, 1, 0, 0, 0, 0, 1, 0, 1, 1, 0, 1, 1, 1, 1, 2, 0, 2, 1, 2, 1, 0, 255, 0, 0, 0, 1, 0,
        255, 1, 0, 1, 1, 0, 255, 2, 0, 2, 1, 0, 255, 0, 0, 2, 0, 0, 255, 2, 0, 0, 0, 0, 255, 2, 0,
        2, 0, 0, 255, 1, 0, 1, 0, 0, 255, 0, 255, 0, 255, 0, 255, 2, 0, 2, 0, 1, 0, 0, 1, 0, 0, 0,
        0, 0, 0, 0, 0, 0, 4, 1, 1, 3, 2, 3, 3, 255, 2, 0, 255,
    ]
}

// Bench line G with a fifth state, which looks for the line's end after each lamp and has no branch for another lamp.
pub fn five_states() -> [u8; 131]
    ensures bytes { result ≡ G_five }
    ensures size { 131 ≡ length result }
{
    [
        4, 3, 2, 2, 5, 0, 0, 0, 28, 0, 4, 0, 32, 0, 72, 0, 104, 0, 3, 0, 107, 0, 9, 0, 116, 0, 15,
        0, 0, 0, 1, 0, 0, 0, 0, 1, 0, 1, 1, 0, 1, 1, 1, 1, 2, 0, 2, 1, 2, 1, 0, 255, 0, 0, 0, 1, 0,
        255, 1, 0, 1, 1, 0, 255, 2, 0, 2, 1, 0, 255, 0, 0, 2, 0, 0, 255, 2, 0, 0, 0, 0, 255, 2, 0,
        2, 0, 0, 255, 1, 0, 1, 0, 0, 255, 0, 255, 0, 255, 0, 255, 2, 0, 2, 0, 1, 0, 0, 1, 0, 0, 0,
        0, 0, 0, 0, 0, 0, 5, 1, 1, 3, 2, 3, 3, 255, 2, 4, 255, 0, 5, 255,
    ]
}
