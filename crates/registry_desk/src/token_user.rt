//! Whose token it is.

ghost use Rattle.sqlite.specs.Held.{state};
ghost use Rattle.sqlite.specs.State.{Survives};
ghost use Rattle.registry_desk.specs.Promises.{KeepsStored, WasOpen};
ghost use Rattle.registry_desk.specs.Resting.{Rests};
ghost use Rattle.registry_desk.specs.TokenUsers.{IsAskedOpen, NamesUser};

use crate::registry::Registry;
use registry_names::{Fault, Ident};
use registry_publish::TokenDigest;
use registry_tables::load_token_user;
use sqlite::{Alter, Connection};
use std::alloc::Global;

impl<S: Alter> Registry<S> {
    /// The user of the token with this digest. `None` where no token has it. Nothing that is stored
    /// is changed.
    ///
    /// `Memory` is returned where there was no memory to look, and `Database` where the tables or
    /// the disk failed at the look, or had shut the registry before.
    pub fn user_of(&mut self, alloc: Global, digest: &TokenDigest) -> Result<Option<Ident>, Fault>
        ensures names { NamesUser (state S.Store self.old) (state S.Store self.new)
            digest.now result }
        ensures asked { IsAskedOpen (state S.Store self.old) (state S.Store self.new) result }
        ensures opened { WasOpen (state S.Store self.old) (state S.Store self.new) }
        ensures stored { KeepsStored (state S.Store self.old) (state S.Store self.new) }
        ensures survives { Survives (state S.Store self.old) (state S.Store self.new) (λ _. ⊥) }
    {
        found_user(alloc, &mut self.conn, digest)
    }
}

// The user of a token. The transaction rolls back where it is dropped.
fn found_user<S: Alter>(
    alloc: Global,
    conn: &mut Connection<S>,
    digest: &TokenDigest,
) -> Result<Option<Ident>, Fault>
    requires rests { Rests (state S.Store conn.old) }
    ensures rests { Rests (state S.Store conn.new) }
    ensures names { NamesUser (state S.Store conn.old) (state S.Store conn.new)
        digest.now result }
    ensures asked { IsAskedOpen (state S.Store conn.old) (state S.Store conn.new) result }
    ensures opened { WasOpen (state S.Store conn.old) (state S.Store conn.new) }
    ensures stored { KeepsStored (state S.Store conn.old) (state S.Store conn.new) }
    ensures survives { Survives (state S.Store conn.old) (state S.Store conn.new) (λ _. ⊥) }
{
    let mut tx = conn.transaction();
    load_token_user(alloc, &mut tx, digest)
}
