use gs1_keys::{Gtin, Sscc, Text20};
use http_routes::{Routes, Target};
use std::process::Abort;
use std::test::Fail;

fn name(rt: &impl Abort, text: &[u8]) -> Text20 {
    Text20::read(text).ok().expect(rt, "a name")
}

#[test]
fn each_route(rt: HostRuntime) -> Result<(), Fail> {
    let routes = Routes::new(rt.alloc()).expect(&rt, "memory");
    let station = name(&rt, b"P1");
    let batch = name(&rt, b"B6");
    let number = 18446744073709551615;
    let serial = name(&rt, b"a/b");
    let gtin = Gtin::read(b"00614141123452").ok().expect(&rt, "a GTIN");
    let sscc = Sscc::read(b"106141410000000019")
        .ok()
        .expect(&rt, "an SSCC");
    let from = 4294967295;
    let count = 100;
    for (path, target) in [
        (
            "/stations/P%31/requests/18446744073709551615",
            Target::Submit { station, number },
        ),
        ("/batches/%42%36", Target::Report { batch }),
        (
            "/batches/B6/events/4294967295/0100",
            Target::Events { batch, from, count },
        ),
        ("/items/614141123452/a%2fb", Target::Item { gtin, serial }),
        ("/units/106141410000000019", Target::Unit { sscc }),
    ] {
        assert_eq!(rt; routes.target(path), Some(target));
    }
    assert!(rt; Target::Submit { station, number }.has_method(b"POST"));
    assert!(rt; Target::Unit { sscc }.has_method(b"GET"));
    Ok(())
}

#[test]
fn no_route(rt: HostRuntime) -> Result<(), Fail> {
    let routes = Routes::new(rt.alloc()).expect(&rt, "memory");
    for path in [
        "/",
        "/stations/P%201/requests/1",
        "/stations/P1/requests/18446744073709551616",
        "/stations/P1/requests/+1",
        "/batches/B12345678901234567890",
        "/batches/B6/",
        "/batches/B6/events/0/1",
        "/batches/B6/events/4294967296/1",
        "/batches/B6/events/1/101",
        "/items/00614141123453/1",
        "/units/106141410000000018",
        "/units/106141410000000019?x",
    ] {
        assert_eq!(rt; routes.target(path), None);
    }
    Ok(())
}
