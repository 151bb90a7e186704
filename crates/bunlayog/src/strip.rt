// Key strips as C functions.
ghost use Rattle.std.specs.Prelude.{◌≡◌};
ghost use Rattle.engine_strip.specs.Strips.{strip_call, run_strip_call};
ghost use Rattle.c_answers.specs.Interface.{value_in_c, output_in_c, written_in_c};
ghost use Rattle.c_answers.specs.Values.{bits_in_c};

use c_answers::{answered, bits_answered};

#[unsafe(no_mangle)]
pub extern "C" fn bunlayog_strip(
    kinds: &[u8],
    words: &[u64],
    count: u64,
    root: u64,
    out: &mut [u8],
    written: &mut u64,
) -> u32
    ensures { output_in_c result out.new written.new ≡ written_in_c written.old (strip_call kinds.now words.now count root out.old) }
{
    answered(engine_strip::strip(kinds, words, count, root, out), written)
}

#[unsafe(no_mangle)]
pub extern "C" fn bunlayog_run_strip(strip: &[u8], values: &[f64], bits: &mut u64) -> u32
    ensures { value_in_c result bits.new ≡ bits_in_c bits.old (run_strip_call strip.now values.now) }
{
    bits_answered(engine_strip::run_strip(strip, values), bits)
}
