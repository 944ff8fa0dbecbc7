//! What each form of a selector asks of a version.

ghost use Rattle.std.specs.Prelude.{◌≡◌};
ghost use Rattle.registry_ranges.specs.Prefixes.{prefix_view};
ghost use Rattle.registry_ranges.specs.SelectorViews.{asked_view, question_view};
ghost use Rattle.registry_ranges.specs.Selectors as spec;
ghost use Rattle.registry_ranges.specs.Steps.{part_view};

use crate::bound::Bound;
use crate::prefix::Prefix;
use crate::reader::Part;
use crate::relation::Relation;
use crate::simple::Operator;

/// What is asked of a version, with a prerelease that is in the text.
#[derive(Clone, Copy)]
pub enum Question<'a> {
    /// Nothing.
    All,
    /// This major number.
    Major(u64),
    /// These major and minor numbers.
    Minor(u64, u64),
    /// A relation to a version.
    Compared(Bound<'a>),
}

// A prefix with no operator.
fn agreement(prefix: Prefix<'_>) -> Question<'_>
    ensures { question_view result ≡ spec.agreement (prefix_view prefix.entry) }
{
    match prefix {
        Prefix::Any => Question::All,
        Prefix::Major(major) => Question::Major(major),
        Prefix::Minor(major, minor) => Question::Minor(major, minor),
        Prefix::Full(major, minor, patch, pre) => {
            Question::Compared(Bound {
                relation: Relation::Equal,
                major,
                minor,
                patch,
                pre,
            })
        }
    }
}

// A relation, which comes before three numbers alone.
fn comparison(relation: Relation, prefix: Prefix<'_>) -> Option<Question<'_>>
    ensures { asked_view result ≡ spec.comparison relation (prefix_view prefix.entry) }
{
    match prefix {
        Prefix::Full(major, minor, patch, pre) => {
            Some(Question::Compared(Bound {
                relation,
                major,
                minor,
                patch,
                pre,
            }))
        }
        Prefix::Any => None,
        Prefix::Major(_) => None,
        Prefix::Minor(_, _) => None,
    }
}

fn simple_question(operator: Operator, prefix: Prefix<'_>) -> Option<Question<'_>>
    ensures { asked_view result ≡ spec.condition_of_simple operator (prefix_view prefix.entry) }
{
    match operator {
        Operator::Bare => Some(agreement(prefix)),
        Operator::Less => comparison(Relation::Less, prefix),
        Operator::Greater => comparison(Relation::Greater, prefix),
        Operator::LessEq => comparison(Relation::LessEq, prefix),
        Operator::GreaterEq => comparison(Relation::GreaterEq, prefix),
        Operator::Equal => comparison(Relation::Equal, prefix),
        Operator::Tilde | Operator::TildeGreater | Operator::Caret => None,
    }
}

/// What a part of a selector asks of a version: `None` for a part that no selector has.
pub fn question_of(part: Part<'_>) -> Option<Question<'_>>
    ensures { asked_view result ≡ spec.condition_of (part_view part.entry) }
{
    match part {
        Part::Empty => Some(Question::All),
        Part::Hyphen(_, _) => None,
        Part::Simple(simple) => simple_question(simple.operator, simple.prefix),
    }
}
