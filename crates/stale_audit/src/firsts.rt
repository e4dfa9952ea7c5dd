//! Which of two stale translations comes first.

ghost use Rattle.std.specs.Prelude.{◌≡◌};
ghost use Rattle.audit_laws.specs.Firsts.{comes_after as comes_after_of, first_of_two as first_of_two_of};

use audit_laws::stale_pages::StalePage;

/// The first of two stale translations, where they are.
pub fn first_of_two(one: Option<StalePage>, other: Option<StalePage>) -> Option<StalePage>
    ensures { result ≡ first_of_two_of one other }
{
    match (one, other) {
        (Some(one), Some(other)) => Some(if comes_after(&one, &other) {
            other
        } else {
            one
        }),
        (Some(one), None) => Some(one),
        (None, other) => other,
    }
}

/// Whether a stale translation comes after another: by page, then by frame, then by the number of the excess.
fn comes_after(one: &StalePage, other: &StalePage) -> bool
    ensures { result ≡ comes_after_of one.now other.now }
{
    if one.page != other.page {
        return other.page < one.page;
    }
    if one.frame != other.frame {
        return other.frame < one.frame;
    }
    other.excess.number() < one.excess.number()
}
