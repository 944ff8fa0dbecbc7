//! A clock by which the clients of a server act.

use crate::client::{is_answered, send, send_last, wait};
use crate::service::one_more;
use mio::Waker;
use std::cell::Cell;
use std::io;
use std::io::Write;
use std::net::{Shutdown, TcpStream};
use std::os::unix::net::UnixStream;
use std::time::{Clock, Duration};

/// What clients do when a server reads its clock.
#[derive(Clone, Copy)]
pub enum Play {
    /// Nothing.
    Nothing,
    /// The first client is silent; the second asks after 50 s and after 62 s. Then both end.
    Silence,
    /// The connection at the control socket ends in the fifth round.
    Hold,
    /// It ends after 66 s, if nothing was asked until then.
    Lapse,
    /// It stops the server in the fifth round. Two clients ask when the sixth has begun: before the
    /// server has seen either.
    Stop,
}

/// By a fast clock this many milliseconds pass between two readings, and no round waits. A round reads
/// the time twice, and at most 275 ms of it count: the time for which a server waits, and 25 ms more.
/// All of them count while a server is held.
const STEP: u64 = 200;

/// The reading after 50 s: that of the 182nd round.
const AFTER_50: u32 = 364;

/// The reading after 58 s.
const AFTER_58: u32 = 422;

/// The reading after 62 s, of which at least 61 s count: a round in which a connection can go on at
/// once counts for 25 ms.
const AFTER_62: u32 = 452;

/// The reading after 58 s of a hold.
const AFTER_58_HELD: u32 = 290;

/// The reading after 66 s of a hold.
const AFTER_66_HELD: u32 = 330;

/// The time is read once at first, and then twice a round: this is the first reading of the fifth. By
/// then everything is answered that may be.
const FIFTH_ROUND: u32 = 10;

/// The first reading of the sixth round, which comes before that round looks at who holds or stops
/// the server.
const SIXTH_ROUND: u32 = 12;

/// A clock that counts its readings, and whose clients act at some of them.
#[derive(Drop)]
pub struct Playing<'a> {
    pub rt: &'a HostRuntime,
    pub play: Play,
    pub readings: Cell<u32>,
    /// Wakes the server at each reading of a fast clock; any other is the system's.
    pub waker: Option<Waker>,
    /// Who holds or stops the server.
    pub control: Option<&'a UnixStream>,
    pub clients: &'a [TcpStream; 2],
    pub asked: &'a Cell<u32>,
    /// How often the service was asked in the first rounds or seconds of a hold.
    pub asked_meanwhile: Cell<u32>,
    /// Whether each client had one answer in a hold, whether it lasted for 66 s, or whether the server
    /// had ended the silent client's connection after 58 s.
    pub first: Cell<bool>,
    /// Whether it had after 62 s.
    pub second: Cell<bool>,
}

/// A clock that has not been read, with who holds or stops the server, and two clients of it.
pub fn new_clock<'a>(
    rt: &'a HostRuntime,
    play: Play,
    control: Option<&'a UnixStream>,
    clients: &'a [TcpStream; 2],
    asked: &'a Cell<u32>,
) -> Playing<'a> {
    Playing {
        rt,
        play,
        readings: Cell::new(0),
        waker: None,
        control,
        clients,
        asked,
        asked_meanwhile: Cell::new(u32::MAX),
        first: Cell::new(false),
        second: Cell::new(false),
    }
}

impl Playing<'_> {
    fn act(&self, reading: u32) -> io::Result<()> {
        match self.play {
            Play::Nothing => Ok(()),
            Play::Silence => self.stay_silent(reading),
            Play::Hold => self.hold(reading),
            Play::Lapse => self.lapse(reading),
            Play::Stop => self.stop(reading),
        }
    }

    fn stay_silent(&self, reading: u32) -> io::Result<()> {
        let [silent, asks] = self.clients;
        match reading {
            AFTER_50 => send(asks),
            AFTER_58 => {
                self.first.set(self.is_ended(silent));
                Ok(())
            }
            AFTER_62 => {
                self.second.set(self.is_ended(silent));
                send_last(asks)?;
                silent.shutdown(Shutdown::Write)
            }
            _ => Ok(()),
        }
    }

    // Whether the server has ended a client's connection.
    fn is_ended(&self, client: &TcpStream) -> bool {
        wait(self.rt);
        matches!(client.peek(&mut [0; 1]), Ok(0))
    }

    fn hold(&self, reading: u32) -> io::Result<()> {
        if reading != FIFTH_ROUND {
            return Ok(());
        }
        self.asked_meanwhile.set(self.asked.get());
        let [first, second] = self.clients;
        self.first.set(is_answered(first)? && is_answered(second)?);
        self.let_go()
    }

    fn lapse(&self, reading: u32) -> io::Result<()> {
        if reading == AFTER_58_HELD {
            self.asked_meanwhile.set(self.asked.get());
        }
        if reading == AFTER_66_HELD && self.asked.get() == 0 {
            self.first.set(true);
            return self.let_go();
        }
        Ok(())
    }

    fn let_go(&self) -> io::Result<()> {
        match self.control {
            Some(control) => control.shutdown(Shutdown::Write),
            None => Ok(()),
        }
    }

    fn stop(&self, reading: u32) -> io::Result<()> {
        match (reading, self.control) {
            (FIFTH_ROUND, Some(mut control)) => control.write_all(b"s"),
            (SIXTH_ROUND, _) => {
                let [first, second] = self.clients;
                send_last(first)?;
                send_last(second)?;
                wait(self.rt);
                Ok(())
            }
            _ => Ok(()),
        }
    }
}

impl Clock for Playing<'_> {
    fn monotonic(&self) -> io::Result<Duration> {
        let reading = one_more(&self.readings);
        match &self.waker {
            Some(waker) => {
                waker.wake()?;
                self.act(reading)?;
                Ok(Duration::from_millis(STEP * u64::from(reading)))
            }
            None => {
                self.act(reading)?;
                self.rt.monotonic()
            }
        }
    }

    fn since_1970(&self) -> io::Result<Duration> {
        self.rt.since_1970()
    }
}
