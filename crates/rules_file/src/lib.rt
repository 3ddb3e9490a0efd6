// Refusal 22 (02, (e)): is a rules file one from which cells can be filled? `rules_wrong` and `Rules::open` ask nothing of their caller. A file of
// which it is answered that it is not wrong is `Rules`, whose functions are for the crates above and not for users.
#![tactic(auto)]

ghost use Rattle.std.specs.Prelude.{true, false, ◌≡◌, ◌+◌, ◌*◌, ◌≤◌, ◌<◌, length, IfOk, IfErr};
ghost use Rattle.fluent_rules.specs.Fluents.{world_count};
ghost use Rattle.fluent_rules.specs.CellRules.{some_pair};
ghost use Rattle.lamp_line.specs.Refusals.{some_below};
ghost use Rattle.rules_file.specs.RulesFile.{fluents, fluent_bytes, value_counts, rules_place, rule_size, rule_count, rule_from, rule_at};
ghost use Rattle.rules_file.specs.inner.RulesRead.{rule_read};
ghost use Rattle.rules_file.specs.RulesRefusal.{column_wrong, value_wrong, rule_wrong, rules_wrong};

use head_refusals::ranges_wrong;
use job_layout::Sizes;
use lamp_line::Refusal;

// The numbers of the fluents, one for each, from byte `at` on.
fn fluent_bytes(rules: &[u8], at: usize) -> &[u8]
    requires { (0 < length rules.now) × (at + fluents rules.now ≤ length rules.now) }
    ensures { result.now ≡ fluent_bytes rules.now at }
{
    let end = at + rules[0] as usize;
    &rules[at..end]
}

// The product of up to six counts is below 2 to the power 48.
fn world_count(counts: &[u8]) -> u64
    requires { length counts.now ≤ 6 }
    ensures { result ≡ world_count counts.now }
{
    let mut product = 1u64;
    for count in counts {
        product *= *count as u64;
    }
    product
}

fn column_wrong(sizes: Sizes, column: u8) -> bool
    ensures { result ≡ column_wrong sizes column }
{
    (sizes.width() <= column as usize) & (column < 254)
}

fn value_wrong(count: u8, value: u8) -> bool
    ensures { result ≡ value_wrong count value }
{
    // 255 becomes 0, which is above no count. One comparison, and not two, leaves the compiler no branch to make for each value.
    count < value.wrapping_add(1)
}

// One of the values is out of its fluent's range.
fn values_wrong(counts: &[u8], values: &[u8]) -> bool
    ensures { result ≡ some_pair value_wrong counts.now values.now }
{
    counts
        .iter()
        .zip(values)
        .any(|(count, value)| value_wrong(*count, *value))
}

// The rule from byte `at` on is wrong.
fn rule_wrong(rules: &[u8], sizes: Sizes, at: usize) -> bool
    requires { (rules_place rules.now ≤ at) × (at + rule_size rules.now ≤ length rules.now) }
    ensures { result ≡ rule_wrong sizes (value_counts rules.now) (rule_from rules.now at) }
{
    let counts = fluent_bytes(rules, 1);
    let wanted = fluent_bytes(rules, at + 3);
    let new = fluent_bytes(rules, at + 3 + rules[0] as usize);
    (sizes.actions <= rules[at])
        | (sizes.results <= rules[at + 1])
        | column_wrong(sizes, rules[at + 2])
        | values_wrong(counts, wanted)
        | values_wrong(counts, new)
}

// How many bytes a rule has.
fn rule_size(rules: &[u8]) -> usize
    requires { 0 < length rules.now }
    ensures { result ≡ rule_size rules.now }
{
    3 + 2 * rules[0] as usize
}

// Where rule i begins.
fn rule_place(rules: &[u8], i: usize) -> usize
    requires { rules_place rules.now + i * rule_size rules.now + rule_size rules.now ≤ length rules.now }
    ensures { result ≡ rules_place rules.now + i * rule_size rules.now }
{
    1 + rules[0] as usize + i * rule_size(rules)
}

// How many rules there are.
fn rule_count(rules: &[u8]) -> usize
    requires { rules_place rules.now ≤ length rules.now }
    ensures { result ≡ rule_count rules.now }
{
    (rules.len() - 1 - rules[0] as usize) / rule_size(rules)
}

// Some rule is wrong.
fn any_rule_wrong(rules: &[u8], sizes: Sizes) -> bool
    requires { rules_place rules.now ≤ length rules.now }
    ensures { result ≡ some_below (rule_count rules.now) (λ i. rule_wrong sizes (value_counts rules.now) (rule_at rules.now i)) }
{
    (0..rule_count(rules)).any(|i| rule_wrong(rules, sizes, rule_place(rules, i)))
}

// Refusal 22 applies.
pub fn rules_wrong(rules: &[u8], sizes: Sizes) -> bool
    ensures { result ≡ rules_wrong rules.now sizes }
{
    if ranges_wrong(sizes) {
        return true;
    }
    let size = rules.len();
    if size == 0 {
        return true;
    }
    let m = rules[0];
    if (m < 1) | (6 < m) {
        return true;
    }
    let start = 1 + m as usize;
    if size < start {
        return true;
    }
    if world_count(fluent_bytes(rules, 1)) != sizes.worlds as u64 {
        return true;
    }
    if (size - start) % rule_size(rules) != 0 {
        return true;
    }
    any_rule_wrong(rules, sizes)
}

// A rule, with a wanted and a new value for each fluent.
#[derive(Clone, Copy)]
pub struct Rule<'a> {
    pub action: u8,
    pub result: u8,
    pub column: u8,
    pub wanted: &'a [u8],
    pub new: &'a [u8],
}

// A rules file to which refusal 22 does not apply.
#[derive(Clone, Copy)]
pub struct Rules<'a> {
    pub bytes: &'a [u8],
    pub sizes: Sizes,
    ghost right: { rules_wrong bytes.now sizes ≡ false },
}

impl<'a> Rules<'a> {
    ghost use Rattle.lamp_line.specs.declared.Refusal.TheVariants as refused;

    // Opens a rules file for these numbers, unless refusal 22 applies.
    pub fn open(bytes: &'a [u8], sizes: Sizes) -> Result<Self, Refusal>
        ensures opened { IfOk result (λ rules. (rules.bytes.now ≡ bytes.now) × (rules.sizes ≡ sizes)) }
        ensures refused { IfErr result (λ because. (because ≡ refused.Rules) × (rules_wrong bytes.now sizes ≡ true)) }
    {
        if rules_wrong(bytes, sizes) {
            return Err(Refusal::Rules);
        }
        Ok(Rules { bytes, sizes })
    }

    // How many values each fluent has.
    pub fn counts(&self) -> &'a [u8]
        ensures { result.now ≡ value_counts self.now.bytes.now }
    {
        fluent_bytes(self.bytes, 1)
    }

    // How many rules there are.
    pub fn count(&self) -> usize
        ensures { result ≡ rule_count self.now.bytes.now }
    {
        rule_count(self.bytes)
    }

    // Rule i.
    pub fn rule(&self, i: usize) -> Rule<'a>
        requires { i < rule_count self.now.bytes.now }
        ensures { rule_read result.action result.result result.column result.wanted.now result.new.now ≡ rule_at self.now.bytes.now i }
    {
        let at = rule_place(self.bytes, i);
        let fluents = self.bytes[0] as usize;
        Rule {
            action: self.bytes[at],
            result: self.bytes[at + 1],
            column: self.bytes[at + 2],
            wanted: fluent_bytes(self.bytes, at + 3),
            new: fluent_bytes(self.bytes, at + 3 + fluents),
        }
    }
}
