// A sheet that passed all of its rules.
ghost use Rattle.circular.specs.Accepted.{IsAccepted};

use sheet::Sheet;

// Some bytes were accepted and read as this sheet.
#[derive(Clone, Copy)]
pub struct Accepted {
    pub sheet: Sheet,
    pub ghost accepted: { ∥ IsAccepted sheet ∥₁ },
}
