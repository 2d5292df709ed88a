// The functions that programs in C and Rust link: those of the crate `jigwaret`, under their names, with their contracts. A slice passes as a
// pointer, then its length.
#![tactic(auto)]

ghost use Rattle.jigwaret.specs.Numbered.{Checked, EvaluatedAs, LettersAs};
ghost use Rattle.jigwaret.specs.Journal.{slices as in_slices, PreparedAs, RoundAs, ClosedAs, TogetherAs};

// Rules 1 to 10.
#[unsafe(no_mangle)]
pub extern "C" fn jigwaret_check(sheet: &[u8]) -> u32
    ensures { Checked sheet.now result }
{
    jigwaret::jigwaret_check(sheet)
}

// Writes for each letter the byte whose bit k is output k.
#[unsafe(no_mangle)]
pub extern "C" fn jigwaret_evaluate(sheet: &[u8], letters: &[u8], out: &mut [u8]) -> u32
    ensures { EvaluatedAs sheet.now letters.now out.old out.new result }
{
    jigwaret::jigwaret_evaluate(sheet, letters, out)
}

// Writes the set of the letters that agree with the masks, with this number of inputs: bit l of it is letter l.
#[unsafe(no_mangle)]
pub extern "C" fn jigwaret_letters(inputs: u8, known: u8, value: u8, letters: &mut u64) -> u32
    ensures { LettersAs inputs known value letters.old letters.new result }
{
    jigwaret::jigwaret_letters(inputs, known, value, letters)
}

// Prepares the storage, makes the record fresh and writes the number of live pairs into answer[0], their exact reach into answer[1].
#[unsafe(no_mangle)]
pub extern "C" fn jigwaret_prepare(
    sheet: &[u8],
    storage: &mut [u64],
    record: &mut [u32],
    answer: &mut [u32],
) -> u32
    ensures { PreparedAs sheet.now storage.old storage.new (in_slices record.old record.new answer.old answer.new) result }
{
    jigwaret::jigwaret_prepare(sheet, storage, record, answer)
}

// A round, its letter one of the set: writes the verdict number of output k into answer[k].
#[unsafe(no_mangle)]
pub extern "C" fn jigwaret_round(
    sheet: &[u8],
    storage: &mut [u64],
    record: &mut [u32],
    letters: u64,
    answer: &mut [u32],
) -> u32
    ensures { RoundAs sheet.now storage.old storage.new letters (in_slices record.old record.new answer.old answer.new) result }
{
    jigwaret::jigwaret_round(sheet, storage, record, letters, answer)
}

// A closing: writes the verdict number of output k into answer[k] and its share into answer[n + k].
#[unsafe(no_mangle)]
pub extern "C" fn jigwaret_close(
    sheet: &[u8],
    storage: &[u64],
    record: &mut [u32],
    answer: &mut [u32],
) -> u32
    ensures { ClosedAs sheet.now storage.now (in_slices record.old record.new answer.old answer.new) result }
{
    jigwaret::jigwaret_close(sheet, storage, record, answer)
}

// A question about the last round: writes the number of the verdict on all outputs of the set, bit k being output k, into answer[0].
#[unsafe(no_mangle)]
pub extern "C" fn jigwaret_together(
    sheet: &[u8],
    storage: &[u64],
    record: &[u32],
    outputs: u8,
    answer: &mut [u32],
) -> u32
    ensures { TogetherAs sheet.now storage.now outputs (in_slices record.now record.now answer.old answer.new) result }
{
    jigwaret::jigwaret_together(sheet, storage, record, outputs, answer)
}
