// World states as values of fluents, and what a rule wants and makes of them (02, (e)).
//
// These functions are for the generator in the crates above and not for users: they ask for lists with a number for each fluent, and `new_world`
// for values that are in their ranges.
#![tactic(auto)]

ghost use Rattle.std.specs.Prelude.{◌≡◌, false, not, ◌≤◌, ◌<◌, length, take};
ghost use Rattle.fluent_rules.specs.Fluents.{world_count, Values, world_number, values_in};
ghost use Rattle.fluent_rules.specs.CellRules.{some_pair, unwanted, new_value, new_values};
ghost use Rattle.rules_file.specs.RulesRefusal.{value_wrong};

use lamp_line::WorldState;

// Writes the values that the fluents have in a world state to the front of `values`. The first fluent is the slowest, so that the weight of its
// value is the number of world states of the fluents after it.
pub fn world_values(counts: &[u8], worlds: u8, world: WorldState, values: &mut [u8])
    requires { (length counts.now ≤ length values.old) × (worlds ≡ world_count counts.now) × (0 < worlds) }
    ensures { take (length counts.now) values.new ≡ values_in counts.now world.0 }
{
    let mut weight = worlds;
    let mut rest = world.0;
    for (i, count) in counts.iter().enumerate() {
        weight /= *count;
        values[i] = rest / weight;
        rest %= weight;
    }
}

fn is_unwanted(wanted: u8, value: u8) -> bool
    ensures { result ≡ unwanted wanted value }
{
    wanted != 255 && wanted != value
}

// A rule with these wanted values matches these values.
pub fn wants(wanted: &[u8], values: &[u8]) -> bool
    requires { length wanted.now ≡ length values.now }
    ensures { result ≡ not (some_pair unwanted wanted.now values.now) }
{
    !wanted
        .iter()
        .zip(values)
        .any(|(wanted, value)| is_unwanted(*wanted, *value))
}

fn new_value(new: u8, value: u8) -> u8
    ensures { result ≡ new_value new value }
{
    if new == 255 {
        return value;
    }
    new
}

// The world state that a rule with these new values makes of these values.
pub fn new_world(counts: &[u8], new: &[u8], values: &[u8]) -> WorldState
    requires { (world_count counts.now ≤ 64) × (length new.now ≡ length counts.now) × (some_pair value_wrong counts.now new.now ≡ false)
        × Values counts.now values.now }
    ensures { result.0 ≡ world_number counts.now (new_values new.now values.now) }
{
    let mut world = 0u8;
    for (i, count) in counts.iter().enumerate() {
        world = world * *count + new_value(new[i], values[i]);
    }
    WorldState(world)
}
