// What each line is about.

ghost use Rattle.std.specs.Prelude.{◌≡◌, ◌<◌, slice_index_or};
ghost use Rattle.workload.specs.Subjects.{subjects, shape_of};
ghost use Rattle.workload.specs.declared.subject.Subject.TheVariants.{Plan};

use crate::class::Class;
use plan_base::Op;

/// What a line is about. Sites, targets, proposals and groups are counted from 0.
#[derive(Clone, Copy)]
pub(crate) enum Subject {
    Open,
    Instrument { class: Class },
    Telescope { site: u32, class: Class },
    Night { site: u32 },
    Visibility { target: u32, site: u32 },
    Grant { proposal: u32, class: Class },
    Submit { group: u32 },
    Plan,
}

/// What the line at a place is about, counted from 0.
pub(crate) fn subject_at(place: u32) -> Subject
    requires { place < 211 }
    ensures { result ≡ slice_index_or subjects place Plan }
{
    match place {
        0 => Subject::Open,
        1..=2 => Subject::Instrument {
            class: Class::drawn(place - 1),
        },
        3..=8 => Subject::Telescope {
            site: (place - 3) / 2,
            class: Class::drawn((place - 3) % 2),
        },
        9..=11 => Subject::Night { site: place - 9 },
        12..=131 => Subject::Visibility {
            target: (place - 12) / 3,
            site: (place - 12) % 3,
        },
        132..=139 => Subject::Grant {
            proposal: (place - 132) / 2,
            class: Class::drawn((place - 132) % 2),
        },
        140..=209 => Subject::Submit { group: place - 140 },
        _ => Subject::Plan,
    }
}

/// The kind of a group, and how many requests it has.
pub(crate) fn shape_of(group: u32) -> (Op, u32)
    ensures { result ≡ shape_of group }
{
    let rest = group % 7;
    if rest < 4 {
        return (Op::Single, 1);
    }
    if rest == 4 {
        return (Op::Many, 3);
    }
    if rest == 5 {
        return (Op::OneOf, 3);
    }
    (Op::And, 2)
}
