// The machine runs a strip that was tested. The two topmost values are held by themselves and those below them in an array: so no key waits for a value that was
// stored just before. The array stands beside the machine and not in it: a struct with an array that is indexed stays in memory as a whole, and in C a run took
// 13 to 23 % more time with it.
ghost use Rattle.std.specs.Prelude.{◌≡◌, true, ◌+◌, ◌-◌, ◌<◌, ◌≤◌, length, get_or, set, Ok};
ghost use Rattle.std.specs.Float.{nan};
ghost use Rattle.refusals.specs.Numbers.{numbered};
ghost use Rattle.literal.specs.Literal.{is_literal};
ghost use Rattle.double.specs.Double.{double_of, pow_of};
ghost use Rattle.key_strip.specs.Strip.{most_places};
ghost use Rattle.key_strip.specs.Machine.{is_strip, run_strip};
ghost use Rattle.strip_run.specs.Running.{machine, Running, RanTo};

use crate::operands::{eight_bytes, four_bytes, two_bytes};
use key_strip::PLACES;
use refusals::Refusal;

// An array with a place for each of the machine's.
const HELD: usize = PLACES as usize;

// The machine before a key: the key's place, how many values are in use, the topmost one and the one below it.
#[derive(Clone, Copy)]
struct Machine {
    at: usize,
    depth: usize,
    top: f64,
    below: f64,
}

impl Machine {
    // A value is pushed: the one that was below the topmost is put into the array.
    fn pushed(self, held: &mut [f64; HELD], x: f64, next: usize) -> Machine
        requires { self.depth < most_places }
        ensures moved { result ≡ machine next (self.depth + 1) x self.top }
        ensures held_after { held.new ≡ set held.old self.depth self.below }
    {
        held[self.depth] = self.below;
        Machine {
            at: next,
            depth: self.depth + 1,
            top: x,
            below: self.top,
        }
    }

    // The two topmost values are combined, the lower one being the left.
    fn combined<F: FnOnce(f64, f64) -> f64>(self, held: &[f64; HELD], op: F, next: usize) -> Machine
        requires places { (2 ≤ self.depth) × (self.depth ≤ most_places) }
        requires callable { F.IsAlwaysCallable op }
        ensures value { F.post op self.below self.top result.top }
        ensures moved { result ≡ machine next (self.depth - 1) result.top (get_or held.now (self.depth - 1) nan) }
    {
        let left = self.depth - 1;
        Machine {
            at: next,
            depth: left,
            top: op(self.below, self.top),
            below: held[left],
        }
    }

    // The topmost value is raised.
    fn raised(self, exponent: u32, next: usize) -> Machine
        ensures { result ≡ machine next self.depth (pow_of self.top exponent) self.below }
    {
        Machine {
            at: next,
            top: double::pow(self.top, exponent),
            ..self
        }
    }
}

// A literal as a double. `double::of_literal` would test its range a second time.
#[tactic(auto, using(double::proofs::Exact::literal_double))]
fn exact(z: i64) -> f64
    requires { is_literal z ≡ true }
    ensures { Ok result ≡ double_of z }
{
    z as f64
}

// The key at the machine's place runs. The strip was tested, so a code below 3 that is not 1 is 2, and the last one is 9. The codes are numbers, and how far each
// key goes stands beside it: see `test_key`.
fn run_key(
    strip: &[u8],
    values: &[f64],
    held: &mut [f64; HELD],
    machine: Machine,
) -> Result<Machine, Refusal>
    requires running { Running strip.now values.now held.old machine }
    requires at_in_bounds { machine.at < length strip.now }
    ensures { RanTo strip.now values.now machine.at held.new (numbered result) }
{
    let from = machine.at + 1;
    let code = strip[machine.at];
    if code < 3 {
        if code == 1 {
            let v = two_bytes(strip, from);
            let x = evaluate::value_of_variable(values, u32::from(v))?;
            return Ok(machine.pushed(held, x, from + 2));
        }
        let z = literal::from_word(eight_bytes(strip, from));
        return Ok(machine.pushed(held, exact(z), from + 8));
    }
    if code < 6 {
        if code == 4 {
            return Ok(machine.combined(held, double::product, from));
        }
        if code == 3 {
            return Ok(machine.combined(held, double::sum, from));
        }
        return Ok(machine.combined(held, double::quotient, from));
    }
    if code == 8 {
        let e = four_bytes(strip, from);
        return Ok(machine.raised(e, from + 4));
    }
    Ok(machine.combined(held, double::max, from))
}

// A strip that was tested runs, from place to place as in the test: see `tested`.
pub fn run(strip: &[u8], values: &[f64]) -> Result<f64, Refusal>
    requires { is_strip strip.now ≡ true }
    ensures { numbered result ≡ run_strip values.now strip.now }
{
    let mut held = [0.0; HELD];
    let mut machine = Machine {
        at: 0,
        depth: 0,
        top: 0.0,
        below: 0.0,
    };
    while machine.at < strip.len() {
        machine = run_key(strip, values, &mut held, machine)?;
    }
    Ok(machine.top)
}
