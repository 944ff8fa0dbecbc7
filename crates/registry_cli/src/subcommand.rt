//! The subcommands, each with its arguments.

ghost use Rattle.std.specs.Prelude.{◌≡◌, find, map, option_map};
ghost use Rattle.std.specs.Str.{bytes_eq};
ghost use Rattle.registry_cli.specs.Errands.{errands};
ghost use Rattle.registry_cli.specs.Subcommands.{organisations, packages, queries, serving, subcommands, teams};
ghost use Rattle.registry_cli.specs.Tables.{row_of};

/// Whether an argument has to be there.
#[derive(Clone, Copy)]
pub(crate) enum Need {
    /// It has to be there.
    Required,
    /// Where it is left out, this text is its value.
    Default(&'static str),
    /// It is an option whose value is a number from 1 on.
    Number {
        /// The option's name, without its hyphens.
        option: &'static str,
        /// The greatest number.
        greatest: u32,
        /// Its value where it is left out.
        default: &'static str,
    },
    /// It is an option, and a number from 1 on, or may be left out.
    NumberIfSaid {
        /// The option's name, without its hyphens.
        option: &'static str,
        /// The greatest number.
        greatest: u32,
    },
    /// It is an option, and may be left out.
    WordIfSaid {
        /// The option's name, without its hyphens.
        option: &'static str,
    },
    /// It is a flag: an option without a value.
    Flag {
        /// The option's name, without its hyphens.
        option: &'static str,
    },
}

/// An argument of a subcommand.
#[derive(Clone, Copy)]
pub(crate) struct Parameter {
    /// What it is called.
    pub(crate) id: &'static str,
    /// What the subcommand's help says of it.
    pub(crate) help: &'static str,
    /// Whether it has to be there.
    pub(crate) need: Need,
}

/// A subcommand.
#[derive(Clone, Copy)]
pub(crate) struct Subcommand {
    /// Its name.
    pub(crate) name: &'static str,
    /// Its arguments, in their order.
    pub(crate) parameters: &'static [Parameter],
    /// What it does, in one line.
    pub(crate) about: &'static str,
    /// An example of how it is called, or what is better.
    pub(crate) example: &'static str,
}

const USER: Parameter = Parameter {
    id: "USER",
    help: "The name of a user",
    need: Need::Required,
};

const TOKEN: Parameter = Parameter {
    id: "TOKEN",
    help: "A token: 16 to 128 characters of A-Z a-z 0-9 - _ . ~ + / =",
    need: Need::Required,
};

const TOKEN_OR_INPUT: Parameter = Parameter {
    id: "TOKEN",
    help: "A token, or - for the one on standard input, which no list of processes shows",
    need: Need::Required,
};

const ORGANISATION: Parameter = Parameter {
    id: "ORG",
    help: "The name of an organisation, without @",
    need: Need::Required,
};

const ROLE: Parameter = Parameter {
    id: "ROLE",
    help: "developer, admin or owner",
    need: Need::Default("developer"),
};

const TEAM: Parameter = Parameter {
    id: "TEAM",
    help: "The name of a team",
    need: Need::Required,
};

const PACKAGE: Parameter = Parameter {
    id: "PACKAGE",
    help: "The name of a package, with its scope",
    need: Need::Required,
};

const LEVEL: Parameter = Parameter {
    id: "LEVEL",
    help: "read-only or read-write",
    need: Need::Required,
};

const STATUS: Parameter = Parameter {
    id: "STATUS",
    help: "public or restricted",
    need: Need::Required,
};

const FILE: Parameter = Parameter {
    id: "FILE",
    help: "The file with the body that npm publish sends",
    need: Need::Required,
};

const TAG: Parameter = Parameter {
    id: "TAG",
    help: "A dist-tag",
    need: Need::Required,
};

const VERSION: Parameter = Parameter {
    id: "VERSION",
    help: "A version, as 1.0.0",
    need: Need::Required,
};

const VERSION_OR_LATEST: Parameter = Parameter {
    id: "VERSION",
    help: "A version, as 1.0.0, or latest",
    need: Need::Required,
};

const SELECTOR: Parameter = Parameter {
    id: "SELECTOR",
    help: "Versions, as 1.x or \">=1.0.0 <2.0.0\"",
    need: Need::Required,
};

const MESSAGE: Parameter = Parameter {
    id: "MESSAGE",
    help: "At most 1,024 bytes; the empty text takes a deprecation back",
    need: Need::Required,
};

const COPY: Parameter = Parameter {
    id: "COPY",
    help: "The path of the copy, where no file is yet",
    need: Need::Required,
};

const PORT: Parameter = Parameter {
    id: "PORT",
    help: "The port of 127.0.0.1, from 1 to 65535",
    need: Need::Number {
        option: "port",
        greatest: 65_535,
        default: "8080",
    },
};

const CONNECTIONS: Parameter = Parameter {
    id: "CONNECTIONS",
    help: "How many connections are served, from 1 to 1000000",
    need: Need::Number {
        option: "connections",
        greatest: 1_000_000,
        default: "1000000",
    },
};

static ORGANISATIONS: [Subcommand; 7] = [
    Subcommand {
        name: "user-add",
        parameters: &[USER],
        about: "Add a user (the operator)",
        example: "Example: registry --operator user-add ann",
    },
    Subcommand {
        name: "token-add",
        parameters: &[USER, TOKEN],
        about: "Add a token, by which npm shows that it is the user (the operator)",
        example: "Better: registry --operator token-new ann\n\nA list of processes shows the token of token-add. token-new makes one, and prints it once.",
    },
    Subcommand {
        name: "token-rm",
        parameters: &[TOKEN_OR_INPUT],
        about: "End a token, which then names nobody (the operator, or the user whose it is)",
        example: "Example: registry --as ann token-rm - < token.txt",
    },
    Subcommand {
        name: "tokens-rm",
        parameters: &[USER],
        about: "End all tokens of a user (the operator)",
        example: "Example: registry --operator tokens-rm ann",
    },
    Subcommand {
        name: "org-create",
        parameters: &[ORGANISATION, USER],
        about: "Make an organisation with its first owner (the operator)",
        example: "Example: registry --operator org-create lab ann",
    },
    Subcommand {
        name: "org-set",
        parameters: &[ORGANISATION, USER, ROLE],
        about: "Give a user a role in an organisation (an owner)",
        example: "Example: registry --as ann org-set lab bob developer",
    },
    Subcommand {
        name: "org-rm",
        parameters: &[ORGANISATION, USER],
        about: "Take a user out of an organisation and its teams (an owner)",
        example: "Example: registry --as ann org-rm lab bob",
    },
];

static TEAMS: [Subcommand; 6] = [
    Subcommand {
        name: "team-create",
        parameters: &[ORGANISATION, TEAM],
        about: "Make a team (an owner or admin)",
        example: "Example: registry --as ann team-create lab ops",
    },
    Subcommand {
        name: "team-destroy",
        parameters: &[ORGANISATION, TEAM],
        about: "Destroy a team, with what it was granted (an owner or admin)",
        example: "Example: registry --as ann team-destroy lab ops",
    },
    Subcommand {
        name: "team-add",
        parameters: &[ORGANISATION, TEAM, USER],
        about: "Put a member of the organisation into a team (an owner or admin)",
        example: "Example: registry --as ann team-add lab ops bob",
    },
    Subcommand {
        name: "team-rm",
        parameters: &[ORGANISATION, TEAM, USER],
        about: "Take a member out of a team (an owner or admin)",
        example: "Example: registry --as ann team-rm lab ops bob",
    },
    Subcommand {
        name: "grant",
        parameters: &[ORGANISATION, TEAM, PACKAGE, LEVEL],
        about: "Grant a team a package of the organisation's scope (an owner or admin)",
        example: "Example: registry --as ann grant lab ops @lab/kit read-write",
    },
    Subcommand {
        name: "revoke",
        parameters: &[ORGANISATION, TEAM, PACKAGE],
        about: "Take back what a team is granted on a package (an owner or admin)",
        example: "Example: registry --as ann revoke lab ops @lab/kit",
    },
];

static PACKAGES: [Subcommand; 9] = [
    Subcommand {
        name: "access",
        parameters: &[PACKAGE, STATUS],
        about: "Make a package public or restricted (who may write it)",
        example: "Example: registry --as ann access @lab/kit public",
    },
    Subcommand {
        name: "owner-add",
        parameters: &[PACKAGE, USER],
        about: "Make a user a maintainer of a package (a maintainer)",
        example: "Example: registry --as bob owner-add tool eve",
    },
    Subcommand {
        name: "owner-rm",
        parameters: &[PACKAGE, USER],
        about: "Take a maintainer from a package (a maintainer)",
        example: "Example: registry --as bob owner-rm tool eve",
    },
    Subcommand {
        name: "publish",
        parameters: &[FILE],
        about: "Publish a version of a package (who may write it)",
        example: "Example: registry --as bob publish lab-kit-1.0.0.publish.json",
    },
    Subcommand {
        name: "tag-set",
        parameters: &[PACKAGE, TAG, VERSION],
        about: "Let a dist-tag name a version (who may write the package)",
        example: "Example: registry --as bob tag-set @lab/kit next 1.1.0",
    },
    Subcommand {
        name: "tag-rm",
        parameters: &[PACKAGE, TAG],
        about: "Remove a dist-tag other than latest (who may write the package)",
        example: "Example: registry --as bob tag-rm @lab/kit next",
    },
    Subcommand {
        name: "deprecate",
        parameters: &[PACKAGE, SELECTOR, MESSAGE],
        about: "Deprecate versions of a package with a message (who may write it)",
        example: "Example: registry --as bob deprecate @lab/kit 1.x \"use 2.x\"",
    },
    Subcommand {
        name: "withdraw",
        parameters: &[PACKAGE, VERSION],
        about: "Withdraw a version within 72 hours, for good (who may write the package)",
        example: "Example: registry --as bob withdraw @lab/kit 1.0.0",
    },
    Subcommand {
        name: "withdraw-all",
        parameters: &[PACKAGE],
        about: "Withdraw all versions of a package, or none of them, for good (who may write it)",
        example: "Example: registry --as bob withdraw-all @lab/kit",
    },
];

static QUERIES: [Subcommand; 16] = [
    Subcommand {
        name: "packument",
        parameters: &[PACKAGE],
        about: "Print the packument of a package (who reads it)",
        example: "Example: registry --as bob packument @lab/kit",
    },
    Subcommand {
        name: "abbreviated-packument",
        parameters: &[PACKAGE],
        about: "Print what an install reads of a packument (who reads the package)",
        example: "Example: registry --as bob abbreviated-packument @lab/kit",
    },
    Subcommand {
        name: "version-doc",
        parameters: &[PACKAGE, VERSION_OR_LATEST],
        about: "Print the document of a version (who reads the package)",
        example: "Example: registry --as bob version-doc @lab/kit latest",
    },
    Subcommand {
        name: "archive",
        parameters: &[PACKAGE, VERSION],
        about: "Print the archive of a version (who reads the package)",
        example: "Example: registry --as bob archive @lab/kit 1.0.0 > kit-1.0.0.tgz",
    },
    Subcommand {
        name: "tags",
        parameters: &[PACKAGE],
        about: "Print the dist-tags of a package (who reads it)",
        example: "Example: registry --as bob tags @lab/kit",
    },
    Subcommand {
        name: "maintainers",
        parameters: &[PACKAGE],
        about: "Print the maintainers of a package (who reads it)",
        example: "Example: registry --as bob maintainers tool",
    },
    Subcommand {
        name: "members",
        parameters: &[ORGANISATION],
        about: "Print the members of an organisation with their roles (a member)",
        example: "Example: registry --as bob members lab",
    },
    Subcommand {
        name: "teams",
        parameters: &[ORGANISATION],
        about: "Print the teams of an organisation (a member)",
        example: "Example: registry --as bob teams lab",
    },
    Subcommand {
        name: "team-members",
        parameters: &[ORGANISATION, TEAM],
        about: "Print who is in a team (a member of the organisation)",
        example: "Example: registry --as bob team-members lab ops",
    },
    Subcommand {
        name: "team-packages",
        parameters: &[ORGANISATION, TEAM],
        about: "Print what a team is granted (a member of the organisation)",
        example: "Example: registry --as bob team-packages lab ops",
    },
    Subcommand {
        name: "org-packages",
        parameters: &[ORGANISATION],
        about: "Print which packages of an organisation one reads or writes (a member)",
        example: "Example: registry --as bob org-packages lab",
    },
    Subcommand {
        name: "whoami",
        parameters: &[],
        about: "Print the name of the user who asks (a user)",
        example: "Example: registry --as bob whoami",
    },
    Subcommand {
        name: "my-packages",
        parameters: &[],
        about: "Print which packages one maintains, or reads in one's organisations (a user)",
        example: "Example: registry --as bob my-packages",
    },
    Subcommand {
        name: "users",
        parameters: &[],
        about: "Print all users, each with the number of their tokens (the operator)",
        example: "Example: registry --operator users",
    },
    Subcommand {
        name: "organisations",
        parameters: &[],
        about: "Print all organisations (the operator)",
        example: "Example: registry --operator organisations",
    },
    Subcommand {
        name: "packages",
        parameters: &[],
        about: "Print all packages, each with its status and its latest version (the operator)",
        example: "Example: registry --operator packages",
    },
];

static SERVE: [Subcommand; 1] = [Subcommand {
    name: "serve",
    parameters: &[PORT, CONNECTIONS],
    about: "Serve npm over HTTP on 127.0.0.1: up to 512 connections at once, a request at a time",
    example: "Example: registry serve --port 8080\n\nMore options are --socket PATH, --log FILE, and --npm, with which npm owner, unpublish, deprecate,\naccess, org and team work, too: registry serve --npm --help",
}];

const PORT_BESIDE: Parameter = Parameter {
    id: "PORT",
    help: "The port of 127.0.0.1, from 1 to 65535; 8080 where neither it nor --socket is said",
    need: Need::NumberIfSaid {
        option: "port",
        greatest: 65_535,
    },
};

const SOCKET: Parameter = Parameter {
    id: "SOCKET",
    help: "The path of a Unix socket, to which the owner and the group may connect",
    need: Need::WordIfSaid { option: "socket" },
};

const LOG: Parameter = Parameter {
    id: "LOG",
    help: "The file to whose end a line is written for each request",
    need: Need::WordIfSaid { option: "log" },
};

const NPM: Parameter = Parameter {
    id: "npm",
    help: "Answer npm owner, unpublish, deprecate, access, org, team, whoami and logout, too",
    need: Need::Flag { option: "npm" },
};

const NO_CHECK: Parameter = Parameter {
    id: "no-check",
    help: "Don't check what the copy holds, but only that it opens",
    need: Need::Flag { option: "no-check" },
};

const RESTORED: Parameter = Parameter {
    id: "COPY",
    help: "The path of a copy, which stays as it is",
    need: Need::Required,
};

static ERRANDS: [Subcommand; 7] = [
    Subcommand {
        name: "init",
        parameters: &[],
        about: "Make the file of a new, empty registry, where no file is yet",
        example: "Example: registry --db registry.db init",
    },
    Subcommand {
        name: "token-new",
        parameters: &[USER],
        about: "Make a token for a user, and print it once (the operator)",
        example: "Example: registry --operator token-new ann",
    },
    Subcommand {
        name: "check",
        parameters: &[],
        about: "Check that all that the file holds is in form",
        example: "Example: registry --db registry.db check",
    },
    Subcommand {
        name: "backup",
        parameters: &[NO_CHECK, COPY],
        about: "Copy the file, and check the copy",
        example: "Example: registry --db registry.db backup copy.db",
    },
    Subcommand {
        name: "restore",
        parameters: &[NO_CHECK, RESTORED],
        about: "Make the file of a copy, where no file is yet",
        example: "Example: registry --db registry.db restore copy.db",
    },
    Subcommand {
        name: "stop",
        parameters: &[],
        about: "End the server that has the file, once what is under way is answered",
        example: "Example: registry --db registry.db stop",
    },
    Subcommand {
        name: "serve",
        parameters: &[PORT_BESIDE, SOCKET, CONNECTIONS, LOG, NPM],
        about: "Serve npm over HTTP at a Unix socket, with a log of the requests, or for more of npm",
        example: "Example: registry serve --socket http.socket --log requests.log --npm",
    },
];

/// The subcommands for users, tokens and organisations.
pub(crate) fn organisations() -> &'static [Subcommand]
    ensures { map row_of result.now ≡ organisations }
{
    ORGANISATIONS.as_slice()
}

/// The subcommands for teams, and for what they are granted.
pub(crate) fn teams() -> &'static [Subcommand]
    ensures { map row_of result.now ≡ teams }
{
    TEAMS.as_slice()
}

/// The subcommands that change a package.
pub(crate) fn packages() -> &'static [Subcommand]
    ensures { map row_of result.now ≡ packages }
{
    PACKAGES.as_slice()
}

/// The subcommands that print something of the registry.
pub(crate) fn queries() -> &'static [Subcommand]
    ensures { map row_of result.now ≡ queries }
{
    QUERIES.as_slice()
}

/// The subcommand `serve`.
pub(crate) fn serving() -> &'static [Subcommand]
    ensures { map row_of result.now ≡ serving }
{
    SERVE.as_slice()
}

/// The subcommands that ask for no request.
pub(crate) fn errands() -> &'static [Subcommand]
    ensures { map row_of result.now ≡ errands }
{
    ERRANDS.as_slice()
}

/// The subcommand of a request, or `serve`, of this name, if there is one.
pub(crate) fn called(name: &str) -> Option<&'static Subcommand>
    ensures { option_map (λ row. row_of row.now) result
        ≡ find (λ row. bytes_eq row.0 name.now) subcommands }
{
    called_in(organisations(), name)
        .or(called_in(teams(), name))
        .or(called_in(packages(), name))
        .or(called_in(queries(), name))
        .or(called_in(serving(), name))
}

// The subcommand of these that has this name, if there is one.
fn called_in<'a>(rows: &'a [Subcommand], name: &str) -> Option<&'a Subcommand>
    ensures { option_map (λ row. row_of row.now) result
        ≡ find (λ row. bytes_eq row.0 name.now) (map row_of rows.now) }
{
    rows.iter().find(|row| row.name == name)
}
