//! Laws of the policy and of its words. Each is the contract of a function that does nothing.

ghost use Rattle.registry_names.specs.Spellings.{IsReadBack};
ghost use Rattle.registry_access.specs.Hiding.{UnreadAreHidden};
ghost use Rattle.registry_access.specs.Laws.{AgreeingAllow, GreatestGrantCounts, WholeRowsStand, WritersRead};
ghost use Rattle.registry_access.specs.Spellings.{grant_named, grant_text, role_named, role_text};

/// A package that a caller may not read is hidden from them: where every package without a scope is
/// public, whatever they ask, except to publish it as a member of its scope, they get what they
/// would get if it had never been published.
pub fn unread_are_hidden()
    ensures { UnreadAreHidden }
{}

/// Of what a caller's teams are granted on a package the greatest counts, in whatever order the
/// teams come.
pub fn greatest_grant_counts()
    ensures { GreatestGrantCounts }
{}

/// Reading is never refused where writing is allowed, or managing the maintainers, or publishing a
/// further version.
pub fn writers_read()
    ensures { WritersRead }
{}

/// What a caller is allowed depends on what they ask about alone. Of an organisation that is whether
/// it is there, and their role in it; of a package also its status, whether they are a maintainer of
/// it, and what their teams are granted on it.
pub fn agreeing_states_allow_the_same()
    ensures { AgreeingAllow }
{}

/// Any ask may be put to the rows where all of them are loaded.
pub fn all_stored_rows_answer_every_ask()
    ensures { WholeRowsStand }
{}

/// The text of a role is read as that role, and no other text is.
pub fn roles_are_read_back()
    ensures { IsReadBack role_text role_named }
{}

/// The text of a grant is read as that grant, and no other text is.
pub fn grants_are_read_back()
    ensures { IsReadBack grant_text grant_named }
{}
