//! Doors, and TCP on the loopback.
ghost use Rattle.std.specs.Prelude.{◌≡◌, [], Some};

use crate::outside_tests::{expect_put, expect_taken};
use outside::{Door, MemoryDoor, MemoryLink, Sink, Source, TcpDoor};
use std::alloc::Global;
use std::io::{Read, Write};
use std::net::{TcpListener, TcpStream};
use std::process::Abort;

/// A link that gives one byte.
fn link(rt: &impl Abort, alloc: Global, byte: u8) -> MemoryLink
    ensures { ⟦<MemoryLink as Sink>⟧.held result ≡ Some [] }
{
    let bytes = [byte].to_vec(alloc).expect(rt, "memory is ample");
    MemoryLink::new(alloc, bytes, Vec::new(alloc), Vec::new(alloc))
}

/// A door with the links of 5, 6 and 7, whose second call fails.
fn three_links(rt: &impl Abort, alloc: Global) -> MemoryDoor<MemoryLink> {
    let links = [link(rt, alloc, 5), link(rt, alloc, 6), link(rt, alloc, 7)];
    let links = Vec::from_array(alloc, links).expect(rt, "memory is ample");
    let failing = [2].to_vec(alloc).expect(rt, "memory is ample");
    MemoryDoor::new(alloc, links, failing)
}

/// The next link gives this byte.
fn expect_link(rt: &impl Abort, door: &mut MemoryDoor<MemoryLink>, byte: u8) {
    match door.next_link() {
        Ok(next) => {
            let mut link = next.expect(rt, "a link");
            expect_taken(rt, &mut link, &[byte]);
        }
        Err(_) => assert!(rt; false),
    }
}

/// There is no link, since a call failed or all were given.
fn expect_no_link(rt: &impl Abort, door: &mut MemoryDoor<MemoryLink>, failed: bool) {
    match door.next_link() {
        Ok(next) => assert!(rt; next.is_none() && !failed),
        Err(_) => assert!(rt; failed),
    }
}

#[test]
fn a_door_gives_its_links_in_order(rt: HostRuntime) {
    let mut door = three_links(&rt, rt.alloc());
    expect_link(&rt, &mut door, 5);
    expect_no_link(&rt, &mut door, true);
    expect_link(&rt, &mut door, 6);
    expect_no_link(&rt, &mut door, false);
}

/// A door with one link, which put two bytes and came back.
fn one_back(rt: &impl Abort, alloc: Global) -> MemoryDoor<MemoryLink> {
    let links = Vec::from_array(alloc, [link(rt, alloc, 5)]).expect(rt, "memory is ample");
    let mut door = MemoryDoor::new(alloc, links, Vec::new(alloc));
    match door.next_link() {
        Ok(Some(mut link)) => {
            expect_put(rt, &mut link, [9, 8]);
            door.link_back(link);
        }
        _ => assert!(rt; false),
    }
    door
}

#[test]
fn a_door_takes_links_back(rt: HostRuntime) {
    let door = one_back(&rt, rt.alloc());
    let back = door.back(0).expect(&rt, "the link that came back");
    assert!(rt; back.put_bytes() == [9, 8].as_slice());
    assert!(rt; door.back(1).is_none());
}

/// Compares what came of these bytes so far.
fn expect_front<S: Source>(rt: &impl Abort, source: &mut S, bytes: &[u8]) {
    let mut piece = [0; 4];
    let count = source.take(&mut piece).expect(rt, "the source works");
    assert!(rt; count > 0);
    assert!(rt; piece.get(..count) == bytes.get(..count));
}

#[test]
fn tcp_on_the_loopback(rt: HostRuntime) {
    let listener = TcpListener::bind(&rt, "127.0.0.1:0").expect(&rt, "a free port");
    let address = listener.local_addr().expect(&rt, "its address");
    let mut client = TcpStream::connect(&rt, address).expect(&rt, "a connection");
    let mut door = TcpDoor::new(Some(listener), 1);
    let mut piece = [0; 2];
    match door.next_link() {
        Ok(Some(mut link)) => {
            client.write_all(&[1, 2, 3]).expect(&rt, "it is open");
            expect_front(&rt, &mut link, &[1, 2, 3]);
            expect_put(&rt, &mut link, [7, 8]);
            client.read_exact(&mut piece).expect(&rt, "it is open");
            assert!(rt; piece == [7, 8]);
            door.link_back(link);
        }
        _ => assert!(rt; false),
    }
    // it was closed
    assert!(rt; matches!(client.read(&mut piece), Ok(0)));
    assert!(rt; matches!(door.next_link(), Ok(None)));
}

#[test]
fn a_port_that_is_not_bound_fails_at_each_call(rt: HostRuntime) {
    let mut door = TcpDoor::new(None, 1);
    assert!(rt; door.next_link().is_err());
    assert!(rt; matches!(door.next_link(), Ok(None)));
}
