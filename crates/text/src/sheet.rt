// The numbers of a sheet, read one after the other.
ghost use Rattle.std.specs.Prelude.{◌≡◌, ◌≤◌, length, drop, get_or};
ghost use Rattle.text.specs.internal.sheet.Numbers.{numbers_in, NumbersAt};

// Returns the number at the byte `at` of the sheet, or 0 if there is none.
pub fn number(sheet: &[u8], at: usize) -> u32
    ensures { result ≡ get_or (numbers_in (drop at sheet.now)) 0 0 }
{
    match numbers::number_at(sheet, at) {
        Some(v) => v,
        None => 0,
    }
}

// Returns the byte of the sheet after `n` numbers from the byte `at` on; stops where there is no number.
pub fn past(sheet: &[u8], at: usize, n: usize) -> usize
    requires { at ≤ length sheet.now }
    ensures { NumbersAt sheet.now result (drop n (numbers_in (drop at sheet.now))) }
{
    let mut place = at;
    for _ in 0..n {
        match numbers::number_at(sheet, place) {
            Some(v) => place += numbers::write::groups(v) as usize,
            None => return place,
        }
    }
    place
}
