// The terms of 01 as types. Their meaning is defined in specs/.
#![tactic(auto)]

ghost use Rattle.std.specs.Prelude.{◌≡◌, ◌*◌};
ghost use Rattle.lamp_line.specs.Endings.{kind_number};
ghost use Rattle.lamp_line.specs.Refusals.{refusal_number};

// 01, "The line and its tables": program states and world states are numbers of two different sorts. The types keep a value of one
// sort from being used as the other, and only the function `row` of each type turns a value into a place in a table.
#[derive(Clone, Copy)]
pub struct ProgramState(pub u8);

#[derive(Clone, Copy)]
pub struct WorldState(pub u8);

// Where the row with this number begins, in a table whose rows are `width` long.
fn row_start(number: u8, width: u16) -> usize
    ensures { result ≡ number * width }
{
    number as usize * width as usize
}

impl ProgramState {
    // Where the row of this program state begins, in a table whose rows are `width` long.
    pub fn row(self, width: u16) -> usize
        ensures { result ≡ self.0 * width }
    {
        row_start(self.0, width)
    }
}

impl WorldState {
    // Where the row of this world state begins, in a table whose rows are `width` long.
    pub fn row(self, width: u16) -> usize
        ensures { result ≡ self.0 * width }
    {
        row_start(self.0, width)
    }
}

// A program state and a world state: where a run is on arriving at a lamp, and what the check counts.
#[derive(Clone, Copy)]
pub struct Pair {
    pub state: ProgramState,
    pub world: WorldState,
}

// Failures 1 to 4 (01, "One run").
#[derive(Clone, Copy, PartialEq, Eq)]
pub enum FailureKind {
    NotLegal = 1,
    NoBranch = 2,
    Circles = 3,
    GoalFalse = 4,
}

impl FailureKind {
    // The number that 01 gives to a failure kind.
    pub fn number(self) -> u8
        ensures { result ≡ kind_number self }
    {
        self as u8
    }
}

// How a run ends (01, "One run").
#[derive(Clone, Copy)]
pub enum Ending {
    Goal,
    Failure(FailureKind),
}

// The state of the cabinet (01, "The cabinet"): its program state, and the number of lamps left.
#[derive(Clone, Copy)]
pub struct Cabinet {
    pub state: ProgramState,
    pub lamps: u16,
}

// Why an operation refuses a call (01, "Who can cause which number"; 02, (a) and (e), for the last four).
#[derive(Clone, Copy, PartialEq, Eq)]
pub enum Refusal {
    FileSize = 1,
    HeadNumber = 2,
    PartPlace = 3,
    PartLength = 4,
    Mark = 5,
    Cell = 6,
    LegalAtEnd = 7,
    StartMark = 8,
    GoalCell = 9,
    PlanAction = 10,
    PlanTarget = 11,
    LineBuffer = 12,
    WorkingSpace = 13,
    Start = 14,
    Line = 15,
    State = 16,
    AfterEnd = 17,
    NoTarget = 18,
    NoLampLeft = 19,
    LogSize = 20,
    LogEntry = 21,
    Rules = 22,
    CellsLength = 23,
}

impl Refusal {
    // The number that 01 and 02 give to a refusal.
    pub fn number(self) -> u8
        ensures { result ≡ refusal_number self }
    {
        self as u8
    }
}
