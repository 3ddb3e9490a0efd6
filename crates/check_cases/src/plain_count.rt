// The plain count of the pairs that a plan reaches on arriving at a lamp or at the line's end: it begins with the pairs of the marked starts and
// walks from every pair that is reached at every column, again and again.
ghost use Rattle.std.specs.Prelude.{◌<◌};

use crate::shape::shape_of;
use lamp_line::{Pair, ProgramState, WorldState};
use lamp_walk::Walked;

// The index of a pair in an array with room for 65 program states in 64 world states, the most that a job has.
fn place(pair: Pair) -> usize
    ensures { result < 4160 }
{
    usize::from(pair.state.0) % 65 * 64 + usize::from(pair.world.0) % 64
}

// Marks the pair at the beginning of the runs from a world state, if that is a start: the run does not refuse it.
fn reach_start(file: &[u8], reached: &mut [bool; 4160], pair: Pair) {
    if line_run::run_line(file, pair.world, b"", 0, 0).is_ok() {
        reached[place(pair)] = true;
    }
}

// Marks the pair with which a walk at one column arrives at the next. At an end no walk arrives, and from the final state none starts.
fn reach_after(file: &[u8], reached: &mut [bool; 4160], pair: Pair, column: u8) {
    if let Ok(Walked::Arrived(next, _)) = lamp_walk::walk_lamp(file, pair, column) {
        reached[place(next)] = true;
    }
}

// The step with this number: a pair is tried at a column, if it is marked.
fn reach_by(file: &[u8], reached: &mut [bool; 4160], number: u32) {
    let column = (number % 16) as u8;
    let pair = Pair {
        state: ProgramState((number / 1024 % 65) as u8),
        world: WorldState((number / 16 % 64) as u8),
    };
    if reached[place(pair)] {
        reach_after(file, reached, pair, column);
    }
}

// How many pairs a job's plan reaches, if they are no more than 20. Each world state is tried as a start. Then the steps go 20 times through all
// pairs and columns, of which there are 66,560, and every time but the last reaches a new pair.
pub fn reached_pairs(file: &[u8]) -> usize {
    let state = ProgramState(shape_of(file).first);
    let mut reached = [false; 4160];
    for world in 0..64 {
        let world = WorldState(world);
        reach_start(file, &mut reached, Pair { state, world });
    }
    for number in 0..1331200 {
        reach_by(file, &mut reached, number);
    }
    reached.iter().filter(|is_reached| **is_reached).count()
}
