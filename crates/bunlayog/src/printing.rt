// Printing as a C function.
ghost use Rattle.std.specs.Prelude.{◌≡◌};
ghost use Rattle.engine_print.specs.Printing.{print_call};
ghost use Rattle.c_answers.specs.Interface.{output_in_c, written_in_c};

use c_answers::answered;

#[unsafe(no_mangle)]
pub extern "C" fn bunlayog_print(
    kinds: &[u8],
    words: &[u64],
    count: u64,
    root: u64,
    out: &mut [u8],
    written: &mut u64,
) -> u32
    ensures { output_in_c result out.new written.new ≡ written_in_c written.old (print_call kinds.now words.now count root out.old) }
{
    answered(engine_print::print(kinds, words, count, root, out), written)
}
