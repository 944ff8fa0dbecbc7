//! Laws of lines. Each is the contract of a function that does nothing.

ghost use Rattle.registry_log.specs.Laws.{LinesAreSingle, LinesHaveColumns};
ghost use Rattle.registry_log.specs.TargetLaws.{OthersAreShown, RevokedTokensAreHidden, TargetsAreShort, TokensAreHidden};

/// Whatever a client sends, the line of a request is one line, and has seven columns: a reader who
/// splits it at spaces finds them as they were put.
pub fn lines_have_seven_columns()
    ensures columns { LinesHaveColumns }
    ensures single { LinesAreSingle }
{}

/// At most 515 bytes of a target are put: 512 of what is shown, and what says that it is cut.
pub fn targets_are_short()
    ensures { TargetsAreShort }
{}

/// Where a part of a target begins with a token of npm's, plain or escaped, the line is the same
/// whatever token it is, and where npm revokes a token it is the same whatever stands there. So nobody
/// who reads the line learns anything of the token from there.
pub fn tokens_are_hidden()
    ensures tokens { TokensAreHidden }
    ensures revoked { RevokedTokensAreHidden }
{}

/// A target without a token in these places is shown as it came, up to where it is cut. So names are
/// shown, even those that begin with `npm_` and are shorter than a token.
pub fn others_are_shown()
    ensures { OthersAreShown }
{}
