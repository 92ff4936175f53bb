// Document 01's numbers of reasons.

ghost use Rattle.std.specs.Prelude.{◌≡◌};
ghost use Rattle.record.specs.Refusal.{reason_number};

use crate::Reason;

pub fn reason_number(reason: Reason) -> u8
    ensures { result ≡ reason_number reason }
{
    match reason {
        Reason::TooLong => 1,
        Reason::MarkCut => 2,
        Reason::MarkWrong => 3,
        Reason::HeaderCut => 2,
        Reason::TooManyRules => 4,
        Reason::TagWrong => 6,
        Reason::TooManyLiterals => 4,
        Reason::LiteralsCut => 2,
        Reason::LiteralWrong => 5,
        Reason::HeadWrong => 7,
        Reason::EndWrong => 8,
        Reason::OutputShort => 9,
        Reason::SetWrong => 10,
        Reason::SetTooLarge => 12,
        Reason::MemberWrong => 11,
        Reason::NoSuchRule => 13,
        Reason::TooManySheets => 4,
        Reason::SheetCut => 2,
        Reason::SheetSame => 14,
        Reason::OutOfTurn => 15,
    }
}
