// Whether value bytes meet the clauses of a formula: byte v − 1 belongs to variable v, 1 is true, 2 is
// false, and any other value, or no byte, meets neither literal. The formula need not be a sink, so
// a clause may be empty or of any length, and a literal may be any number. A formula is asked by number
// and through `&mut`, so its clauses are gone over by loops: by `find` was tried, and that its closure
// leaves the formula that it captures as it was got no proof.
ghost use Rattle.std.specs.Prelude.{◌≡◌, ℕ, ◌≤◌, [], slice_index_or};
ghost use Rattle.cnf.specs.Meeting.{first_unmet, meets_byte, met, told, value_of};
ghost use Rattle.cnf.specs.Satisfaction.{UnmetRight};
ghost use Rattle.std.specs.List.{list_any};

use crate::formula::Formula;

// What a value byte tells of its variable: 1 that it is true, 2 that it is false, any other nothing.
// (No `Option<bool>`: its cases would not bear these names.)
#[derive(Clone, Copy, PartialEq, Eq, Debug)]
pub enum Value {
    True,
    False,
    Unknown,
}

impl From<u8> for Value {
    fn from(byte: u8) -> Value
        ensures { result ≡ told byte }
    {
        match byte {
            1 => Value::True,
            2 => Value::False,
            _ => Value::Unknown,
        }
    }
}

impl Value {
    // Whether it makes a literal of its variable true.
    fn meets(self, literal: i32) -> bool
        ensures { (b : ℕ) → self ≡ told b → result ≡ meets_byte literal b }
    {
        match self {
            Value::True => literal > 0,
            Value::False => literal < 0,
            Value::Unknown => false,
        }
    }
}

// Whether a literal is met by the value byte of its variable: a positive one by 1, a negative one
// by 2. (A byte, since the caller's buffer holds bytes, and the question is for every byte.)
pub fn meets(literal: i32, value: u8) -> bool
    ensures { result ≡ meets_byte literal value }
{
    Value::from(value).meets(literal)
}

// The byte of a variable, or 0, which tells nothing, where there is none.
pub fn value_byte(values: &[u8], variable: u32) -> u8
    ensures { result ≡ value_of values.now variable }
{
    let Some(place) = (variable as usize).checked_sub(1) else {
        return 0;
    };
    values.get(place).copied().unwrap_or(0)
}

// What the byte of a variable tells: nothing where there is no byte.
pub fn value_of(values: &[u8], variable: u32) -> Value
    ensures { result ≡ told (value_of values.now variable) }
{
    Value::from(value_byte(values, variable))
}

// Whether some of these literals is met. (A loop and not `any`: the project's form for this search.)
fn any_met(literals: &[i32], values: &[u8]) -> bool
    ensures { result ≡ list_any (met values.now) literals.now }
{
    for literal in literals {
        if value_of(values, literal.unsigned_abs()).meets(*literal) {
            return true;
        }
    }
    false
}

// Whether clause k is met.
fn is_met<F: Formula>(formula: &mut F, k: u32, values: &[u8]) -> bool
    ensures value { result ≡ list_any (met values.now) (slice_index_or (F.Formula.clauses formula.old) k []) }
    ensures same { formula.new ≡ formula.old }
{
    let mut buffer = [0; 256];
    let len = formula.length(k).unwrap_or(0);
    for from in (0..len).step_by(256) {
        let n = formula.copy_literals(k, from, &mut buffer);
        if any_met(&buffer[..n], values) {
            return true;
        }
    }
    false
}

// The first clause that no value meets, or none where all are met.
pub fn first_unmet_clause<F: Formula>(formula: &mut F, values: &[u8]) -> Option<u32>
    ensures value { result ≡ first_unmet values.now (F.Formula.clauses formula.old) }
    ensures right { UnmetRight values.now (F.Formula.clauses formula.old) result }
    ensures same { formula.new ≡ formula.old }
{
    for k in 0..formula.count() {
        if !is_met(formula, k, values) {
            return Some(k);
        }
    }
    None
}
