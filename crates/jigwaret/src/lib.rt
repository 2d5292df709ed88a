// The functions that programs in C and Rust call, as `jigwaret_c` exports them: 0 for accepted, or the number of the refusal,
// as C has no Result.
#![tactic(auto)]

ghost use Rattle.jigwaret.specs.Numbered.{Checked, EvaluatedAs, LettersAs};
ghost use Rattle.jigwaret.specs.Journal.{slices as in_slices, PreparedAs, RoundAs, ClosedAs, TogetherAs};

// Rules 1 to 10.
pub fn jigwaret_check(sheet: &[u8]) -> u32
    ensures { Checked sheet.now result }
{
    outcomes::outcome_number(circular::check_sheet(sheet))
}

// Writes for each letter the byte whose bit k is output k.
pub fn jigwaret_evaluate(sheet: &[u8], letters: &[u8], out: &mut [u8]) -> u32
    ensures { EvaluatedAs sheet.now letters.now out.old out.new result }
{
    outcomes::outcome_number(trace::evaluate(sheet, letters, out))
}

// Writes the set of the letters that agree with the masks, with this number of inputs: bit l of it is letter l.
pub fn jigwaret_letters(inputs: u8, known: u8, value: u8, letters: &mut u64) -> u32
    ensures { LettersAs inputs known value letters.old letters.new result }
{
    match letters::from_masks(inputs, known, value) {
        Ok(set) => {
            *letters = set;
            0
        }
        Err(e) => u32::from(e),
    }
}

// From here on: 255, and nothing altered, where a record has not 30 numbers or an answer fewer than 16.

// Prepares the storage, makes the record fresh and writes the number of live pairs into answer[0], their exact reach into answer[1].
pub fn jigwaret_prepare(
    sheet: &[u8],
    storage: &mut [u64],
    record: &mut [u32],
    answer: &mut [u32],
) -> u32
    ensures { PreparedAs sheet.now storage.old storage.new (in_slices record.old record.new answer.old answer.new) result }
{
    if !slices::sized(record.len(), answer.len()) {
        return 255;
    }
    let a = monitor::prepare(sheet, storage);
    match a.outcome {
        Ok(()) => {
            slices::store(record, a.record);
            answer[0] = a.live;
            answer[1] = a.reach;
            0
        }
        Err(e) => u32::from(e),
    }
}

// A round, its letter one of the set: writes the verdict number of output k into answer[k].
pub fn jigwaret_round(
    sheet: &[u8],
    storage: &mut [u64],
    record: &mut [u32],
    letters: u64,
    answer: &mut [u32],
) -> u32
    ensures { RoundAs sheet.now storage.old storage.new letters (in_slices record.old record.new answer.old answer.new) result }
{
    if !slices::sized(record.len(), answer.len()) {
        return 255;
    }
    let before = slices::load(record);
    let a = monitor::round(sheet, storage, before, letters);
    match a.outcome {
        Ok(()) => {
            slices::store(record, a.record);
            slices::put_verdicts(answer, 0, a.verdicts, sheet[6] as usize);
            0
        }
        Err(e) => u32::from(e),
    }
}

// A closing: writes the verdict number of output k into answer[k] and its share into answer[n + k].
pub fn jigwaret_close(sheet: &[u8], storage: &[u64], record: &mut [u32], answer: &mut [u32]) -> u32
    ensures { ClosedAs sheet.now storage.now (in_slices record.old record.new answer.old answer.new) result }
{
    if !slices::sized(record.len(), answer.len()) {
        return 255;
    }
    let before = slices::load(record);
    let a = monitor::close(sheet, storage, before);
    match a.outcome {
        Ok(()) => {
            slices::store(record, a.record);
            let n = sheet[6] as usize;
            slices::put_verdicts(answer, 0, a.verdicts, n);
            slices::put_numbers(answer, n, &a.shares, n);
            0
        }
        Err(e) => u32::from(e),
    }
}

// A question about the last round: writes the number of the verdict on all outputs of the set, bit k being output k, into answer[0].
pub fn jigwaret_together(
    sheet: &[u8],
    storage: &[u64],
    record: &[u32],
    outputs: u8,
    answer: &mut [u32],
) -> u32
    ensures { TogetherAs sheet.now storage.now outputs (in_slices record.now record.now answer.old answer.new) result }
{
    if !slices::sized(record.len(), answer.len()) {
        return 255;
    }
    let before = slices::load(record);
    let a = queries::together(sheet, storage, before, outputs);
    match a.outcome {
        Ok(()) => {
            answer[0] = u32::from(a.verdict);
            0
        }
        Err(e) => u32::from(e),
    }
}
