//! The commands of the program.
use gs1_keys::Text20;

/// What the words of the command line ask for.
#[derive(Clone, Copy, Debug, PartialEq, Eq)]
pub enum Command {
    /// `init SITE`: reads the site file of that name and makes the journal.
    Init,
    /// `run`: answers each line of the input.
    Run,
    /// `report BATCH`: prints a batch's report.
    Report {
        /// The batch's name.
        batch: Text20,
    },
    /// `export BATCH FROM COUNT`: prints so many of a batch's events.
    Export {
        /// The batch's name.
        batch: Text20,
        /// The number of the first event, from 1.
        from: u32,
        /// How many, 1 to 10,000.
        count: u32,
    },
    /// `check`: replays all events.
    Check,
    /// `log FROM COUNT`: prints so many entries of the history, a line each.
    Log {
        /// The number of the first entry, from 1.
        from: u32,
        /// How many, 1 to 10,000.
        count: u32,
    },
    /// `sim SEED COUNT`: runs the simulation in a new journal.
    Simulate {
        /// What its random words begin with.
        seed: u32,
        /// How many serials it draws, 1 to 200,000.
        count: u32,
    },
    /// `serve PORT WORKERS CONNECTIONS`: serves stations over HTTP.
    Serve(ServeWords),
}

/// The numbers of `serve`.
#[derive(Clone, Copy, Debug, PartialEq, Eq)]
pub struct ServeWords {
    /// The port on 127.0.0.1, from 1.
    pub port: u16,
    /// How many workers, 1 to 64.
    pub workers: u8,
    /// How many connections, 1 to 1,000,000.
    pub connections: u32,
}
