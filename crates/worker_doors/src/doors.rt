//! The doors.
ghost use Rattle.std.specs.Prelude.{◌≡◌, ◌<◌, ◌≤◌, IfOk};
ghost use Rattle.command_words.specs.Commands.{AreRanged};
ghost use Rattle.worker_doors.specs.Shares.{AreShares, share};

use command_words::ServeWords;
use outside::{Door, TcpDoor};
use std::alloc::{AllocError, Global};
use std::net::{Ipv4Addr, Net, TcpListener, TcpStream};

/// A door for each worker at the port, which only this machine reaches. Where the port can't be bound, each call of a
/// door fails.
///
/// # Errors
///
/// `AllocError` where no memory was found.
pub fn open_doors<R: Net<Stream = TcpStream, Listener = TcpListener> + AllocGlobal>(
    rt: &R,
    words: ServeWords,
) -> Result<Vec<TcpDoor>, AllocError>
    requires { AreRanged words }
    ensures { IfOk result (λ doors. AreShares ⟦<TcpDoor as Door>⟧.state words doors.items) }
{
    let listener = TcpListener::bind(rt, (Ipv4Addr::LOCALHOST, words.port)).ok();
    doors_at(rt.alloc(), &listener, words)
}

/// A door for each worker at this listener.
fn doors_at(
    alloc: Global,
    listener: &Option<TcpListener>,
    words: ServeWords,
) -> Result<Vec<TcpDoor>, AllocError>
    requires { AreRanged words }
    ensures { IfOk result (λ doors. AreShares ⟦<TcpDoor as Door>⟧.state words doors.items) }
{
    let mut doors = Vec::with_capacity(alloc, words.workers as usize)?;
    for worker in 0..words.workers {
        doors.push_reserved(TcpDoor::new(another(listener), share(words, worker)));
    }
    Ok(doors)
}

/// The same listener once more.
fn another(listener: &Option<TcpListener>) -> Option<TcpListener> {
    listener.as_ref()?.try_clone().ok()
}

/// How many connections the door of this worker has.
fn share(words: ServeWords, worker: u8) -> u64
    requires { AreRanged words }
    ensures { result ≡ share words worker }
{
    let workers = u32::from(words.workers);
    let one_more = u32::from(worker) < words.connections % workers;
    u64::from(words.connections / workers) + u64::from(one_more)
}
