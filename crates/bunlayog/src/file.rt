// Node files as C functions.
ghost use Rattle.std.specs.Prelude.{◌≡◌};
ghost use Rattle.shape.specs.File.{read_file};
ghost use Rattle.lent.specs.Call.{on_pool};
ghost use Rattle.engine_file.specs.Write.{write_call};
ghost use Rattle.c_answers.specs.Interface.{returned_in_c, in_c, output_in_c, written_in_c};

use c_answers::answered;
use lent::Lent;

#[unsafe(no_mangle)]
pub extern "C" fn bunlayog_write(
    kinds: &[u8],
    words: &[u64],
    count: u64,
    root: u64,
    out: &mut [u8],
    written: &mut u64,
) -> u32
    ensures { output_in_c result out.new written.new ≡ written_in_c written.old (write_call kinds.now words.now count root out.old) }
{
    answered(engine_file::write(kinds, words, count, root, out), written)
}

#[unsafe(no_mangle)]
pub extern "C" fn bunlayog_read(
    kinds: &mut [u8],
    words: &mut [u64],
    count: &mut u64,
    file: &[u8],
    root: &mut u64,
) -> u32
    ensures { returned_in_c result kinds.new words.new count.new root.new ≡ in_c root.old (on_pool (read_file file.now) kinds.old words.old count.old) }
{
    let mut lent = Lent::new(kinds, words, count);
    answered(engine_file::read(&mut lent, file), root)
}
