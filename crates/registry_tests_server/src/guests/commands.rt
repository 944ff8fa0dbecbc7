//! Commands beside a server, and connections that hold or stop it.

use crate::guests::client::send;
use crate::guests::files::{forget, lay};
use crate::guests::stage::play;
use crate::outcome::same;
use registry_guests::{Hold, connect_to_server};
use std::os::unix::net::UnixStream;

/// Scripts, each on a file of its own.
const SCRIPTS: &str = "
# a command beside a server is answered
connect command
rounds 0
hears 0 r
ask 0 --operator user-add ann
rounds 0
done-since 0
server asked 1

# a command that has gone is not done
connect command
ask 0 --operator user-add ann
drop 0
rounds 0
server asked 0

# a held server takes no command
# the first command comes before the hold, and two come during it, of which one goes
connect command
rounds 0
hears 0 r
connect control
send 1 h
rounds 0
hears 1 h
connect command
connect command
ask 0 --operator user-add ann
ask 2 --operator user-add ann
ask 3 --operator user-add ann
rounds 1
hears 3
drop 2
drop 1
rounds 2
done-since 0
done 3
server asked 2

# a ninth command waits
# eight are there, and silent until they are late, after 8 s
connect command
connect command
connect command
connect command
connect command
connect command
connect command
connect command
connect command
ask 8 --operator user-add ann
rounds 7999
hears 8
rounds 15999
done 8
server asked 1

# a newcomer does not end a hold
connect control
send 0 h
rounds 0
hears 0 h
server holds true
connect control
send 1 h
rounds 1
hears 1
send 0 k
rounds 1
hears 0 k
drop 0
rounds 2
hears 1 h

# a stop is kept
# the second rounds come as late as a clock can say
connect control
send 0 s
rounds 0
server stops true
rounds 18446744073709551615
server stops true
hears 0
listening false
close
ended 0
";

#[test]
fn commands_and_holds_take_turns(rt: HostRuntime) {
    for script in SCRIPTS.trim().split("\n\n") {
        play(&rt, &rt, "turns.db", script);
    }
}

/// Commands, and what the service is told of each. Words that the program doesn't take name nobody.
const TOLD: &str = "
--operator user-add ann -> operator user-add ann done
--as ann org-create lab ann -> ann org-create lab ann done
tags kit -> operator tags kit done
--operator token-add ann npm_ann_000000001 -> operator token-add ann done
--operator token-add npm_ann_000000001 ann -> operator token-add not done
--as npm_ann_000000001 tags kit ->  tags kit done
--operator user-add Ann -> operator user-add Ann not done
what npm_ann_000000001 ->  not done
";

#[test]
fn a_service_is_told_of_commands_without_tokens(rt: HostRuntime) {
    for line in TOLD.trim().lines() {
        let (words, told) = line.split_once(" -> ").expect(&rt, line);
        let script = format!(in rt.alloc();
            "connect command\nask 0 {words}\nrounds 0\nserver told {told}"
        );
        play(&rt, &rt, "told.db", &script.expect(&rt, "memory"));
    }
}

#[test]
fn without_a_server_none_is_found(rt: HostRuntime) {
    let file = "found.db";
    lay(&rt, file).expect(&rt, "a file");
    let none = connect_to_server(&rt, rt.alloc(), file).expect(&rt, "no error");
    same(&rt, "no server", none.is_none(), true);
    forget(&rt, file);
}

#[test]
fn a_message_in_two_pieces_is_answered(rt: HostRuntime) {
    play(&rt, &rt, "pieces.db", PIECES);
}

/// A message is read for at most 8 s.
const PIECES: &str = "
connect command
begin 0 --operator user-add ann
rounds 0
server asked 0
finish 0 --operator user-add ann
rounds 7999
done 0
server asked 1
";

#[test]
fn a_message_is_read_without_what_another_sent(rt: HostRuntime) {
    play(&rt, &rt, "another.db", ANOTHER);
}

/// The longer message of another, which is out of form, lies in the buffer before.
const ANOTHER: &str = "
connect command
ask 0 --operator user-add somebody-with-a-long-name and more
rounds 0
server asked 0
connect command
ask 1 --operator user-add ann
rounds 0
done 1
server asked 1
";

#[test]
fn a_hold_ends_when_its_time_is_up(rt: HostRuntime) {
    play(&rt, &rt, "lapsed.db", LAPSED);
}

/// A hold lasts for at most 60 s.
const LAPSED: &str = "
connect control
send 0 h
rounds 0
hears 0 h
server holds true
rounds 59999
server holds true
rounds 60000
server holds false
loses 0
";

#[test]
fn a_hold_is_confirmed(rt: HostRuntime) {
    let (stream, server) = UnixStream::pair(&rt).expect(&rt, "two ends");
    let mut hold = Hold::of(stream).expect(&rt, "a hold");
    for (sent, wanted) in [("k", true), ("x", false)] {
        send(&rt, &server, sent.as_bytes());
        same(&rt, sent, hold.confirm().expect(&rt, "it is asked"), wanted);
    }
    drop(server);
    let is_held = hold.confirm().expect(&rt, "it is asked");
    same(&rt, "the server has ended", is_held, false);
}
