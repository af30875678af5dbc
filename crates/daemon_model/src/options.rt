//! What a daemon is asked for beyond what it always does.
ghost use Rattle.std.specs.Prelude.{◌≡◌};
ghost use Rattle.daemon_model.specs.Daemon.{plain_service};
ghost use Rattle.daemon_model.specs.Options.{plainly};

/// Whether a daemon serves clients on other machines (`Off`: it does not); and whether it tells each of them the line of
/// an entry before its first hearing of it.
#[derive(Clone, Copy, Debug, PartialEq, Eq)]
pub enum RemoteService {
    Off,
    On { entries: bool },
}

/// The version of a program.
#[derive(Clone, Copy, Debug, PartialEq, Eq)]
pub struct Version {
    pub major: u16,
    pub minor: u16,
    pub patch: u16,
}

/// What a daemon is told of itself and tells who asks: the version of its program, and a number that stands for its
/// settings, which tells apart daemons whose settings differ.
#[derive(Clone, Copy, Debug, PartialEq, Eq)]
pub struct About {
    pub version: Version,
    pub settings: u64,
}

/// Whom a daemon serves on other machines, and what it tells of itself. Who asks it about itself is answered whomever it
/// serves.
#[derive(Clone, Copy, Debug, PartialEq, Eq)]
pub struct Service {
    pub remote: RemoteService,
    pub about: About,
}

impl Service {
    /// Such a service of a daemon that was told nothing of itself: version 0.0.0 and the number 0.
    pub fn plain(remote: RemoteService) -> Service
        ensures { result ≡ plain_service remote }
    {
        Service {
            remote,
            about: About {
                version: Version {
                    major: 0,
                    minor: 0,
                    patch: 0,
                },
                settings: 0,
            },
        }
    }
}

/// The options of a daemon. None of them is on where the service's `remote` is `Off` and each other is `None`.
///
/// - `service`: whom it serves on other machines, and what it tells of itself.
/// - `silence`: a key of which no Up came for so many ticks ends behind the tick, each at least 1.
/// - `mend`: a node that is apart at so many ticks in a row asks for a view of the nodes of its reach.
/// - `gap`: the daemon ends at the turn whose moment is so many milliseconds, or more, above that of the turn before, or
///   of the start; of that turn nothing else happens.
#[derive(Clone, Copy, Debug, PartialEq, Eq)]
pub struct Options {
    pub service: Service,
    pub silence: Option<u32>,
    pub mend: Option<u32>,
    pub gap: Option<u32>,
}

impl Options {
    /// Such a service, and nothing else.
    pub fn plain(service: Service) -> Options
        ensures { result ≡ plainly service }
    {
        Options {
            service,
            silence: None,
            mend: None,
            gap: None,
        }
    }
}

/// Where a daemon stands between turns: the moment of the last one, or of its start; and at how many ticks in a row, up to
/// the last one, its node was apart and has not mended since, up to 4,294,967,295.
#[derive(Clone, Copy, Debug, PartialEq, Eq)]
pub struct Pace {
    pub before: u64,
    pub apart: u32,
}
