// An accepted journey, a packet or a sheet.

ghost use Rattle.std.specs.Prelude.{◌≡◌, true};
ghost use Rattle.speed_question.specs.internal.Run.{brought_as};
ghost use Rattle.restricted.specs.internal.Travelling.{accepted_journey};

use speed_question::medium::Medium;

// A journey that was accepted as one of its medium.
#[derive(Clone, Copy)]
pub struct Journey<'a> {
    pub medium: Medium,
    pub bytes: &'a [u8],
    ghost accepted: { accepted_journey (brought_as medium) bytes.now ≡ true },
}
