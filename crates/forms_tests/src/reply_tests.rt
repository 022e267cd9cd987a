//! Replies of an example site, with their whole texts.
ghost use Rattle.deed_json.specs.Replies.{stations_of_finding, stations_of_rule, AreOfSite};

use crate::example::{example_site, sscc, text};
use deed_json::{reply_text, reply_value};
use deed_words::{Answer, Condition, Finding, Reply, Rule, Setup, StationId, What};
use gs1_keys::Serials;
use std::alloc::Global;
use std::process::Abort;

/// Compares the text of an acceptance.
fn expect_accepted(rt: &impl Abort, alloc: Global, answer: Answer, text: &str) {
    let site = example_site(rt, alloc);
    let found = reply_text(alloc, &Reply::Accepted(answer), &site).expect(rt, "memory is ample");
    assert!(rt; found.as_str() == text);
}

fn listed(rt: &impl Abort, alloc: Global) -> Answer {
    let mut serials = Serials::new(alloc);
    serials
        .push(text(rt, b"000005"))
        .expect(rt, "memory is ample");
    serials
        .push(text(rt, b"A\"/1"))
        .expect(rt, "memory is ample");
    Answer::Listed(serials)
}

#[test]
fn acceptances(rt: HostRuntime) {
    let alloc = rt.alloc();
    expect_accepted(&rt, alloc, Answer::Plain, "{\"ok\":true}");
    let orders = Answer::Orders {
        added: 2,
        already: 0,
    };
    expect_accepted(&rt, alloc, orders, "{\"already\":0,\"new\":2,\"ok\":true}");
    let serials = "{\"ok\":true,\"serials\":[\"000005\",\"A\\\"/1\"]}";
    expect_accepted(&rt, alloc, listed(&rt, alloc), serials);
    let unit = "{\"ok\":true,\"unit\":\"urn:epc:id:sscc:0614141.1000000001\"}";
    expect_accepted(&rt, alloc, Answer::Made(sscc(&rt)), unit);
    expect_accepted(&rt, alloc, Answer::Taken(10), "{\"ok\":true,\"taken\":10}");
}

#[test]
fn a_reply_is_a_value(rt: HostRuntime) {
    let alloc = rt.alloc();
    let site = example_site(&rt, alloc);
    let plain = Reply::Accepted(Answer::Plain);
    let value = reply_value(alloc, &plain, &site).expect(&rt, "memory is ample");
    let text = value.to_string(alloc).expect(&rt, "memory is ample");
    assert!(rt; text.as_str() == "{\"ok\":true}");
}

/// Compares the text of a refusal.
fn expect_refused(rt: &impl Abort, alloc: Global, site: &Setup, rule: Rule, text: &str)
    requires { AreOfSite site.now (stations_of_rule rule) }
{
    let found = reply_text(alloc, &Reply::Refused(rule), site).expect(rt, "memory is ample");
    assert!(rt; found.as_str() == text);
}

#[test]
fn refusals_with_a_number(rt: HostRuntime) {
    let alloc = rt.alloc();
    let site = example_site(&rt, alloc);
    let batch = "{\"ok\":false,\"rule\":\"UnknownBatch\"}";
    expect_refused(&rt, alloc, &site, Rule::UnknownBatch, batch);
    let row = "{\"ok\":false,\"row\":2,\"rule\":\"OrderConflict\"}";
    expect_refused(&rt, alloc, &site, Rule::OrderConflict(2), row);
    let most = "{\"most\":10000,\"ok\":false,\"rule\":\"CountOutOfRange\"}";
    expect_refused(&rt, alloc, &site, Rule::CountOutOfRange(10000), most);
    let few = "{\"have\":0,\"ok\":false,\"rule\":\"FewFresh\"}";
    expect_refused(&rt, alloc, &site, Rule::FewFresh(0), few);
}

#[test]
fn refusals_with_two_numbers(rt: HostRuntime) {
    let alloc = rt.alloc();
    let site = example_site(&rt, alloc);
    let full = "{\"have\":65536,\"ok\":false,\"rule\":\"SiteFull\",\"what\":\"units\"}";
    expect_refused(&rt, alloc, &site, Rule::SiteFull(What::Units, 65536), full);
    let thin = "{\"asked\":2,\"have\":499999,\"ok\":false,\"rule\":\"PoolThin\"}";
    expect_refused(&rt, alloc, &site, Rule::PoolThin(2, 499_999), thin);
    let room = "{\"have\":10,\"ok\":false,\"room\":10,\"rule\":\"UnitFull\"}";
    expect_refused(&rt, alloc, &site, Rule::UnitFull(10, 10), room);
}

#[test]
fn refusals_of_a_place(rt: HostRuntime) {
    let alloc = rt.alloc();
    let site = example_site(&rt, alloc);
    let state = "{\"index\":3,\"ok\":false,\"rule\":\"WrongState\",\"state\":\"sealed\"}";
    let sealed = Rule::WrongState(3, Condition::Sealed);
    expect_refused(&rt, alloc, &site, sealed, state);
    let parent =
        "{\"index\":0,\"ok\":false,\"parent\":\"106141410000000019\",\"rule\":\"HasParent\"}";
    expect_refused(&rt, alloc, &site, Rule::HasParent(0, sscc(&rt)), parent);
    assert_eq!(rt; site.stations.len(), 4);
    let line = "{\"index\":0,\"line\":\"L1\",\"ok\":false,\"rule\":\"LentToOther\"}";
    expect_refused(&rt, alloc, &site, Rule::LentToOther(0, StationId(1)), line);
}

/// Compares the text of what a close finds.
fn expect_found(rt: &impl Abort, alloc: Global, site: &Setup, finding: Finding, text: &str)
    requires { AreOfSite site.now (stations_of_finding finding) }
{
    expect_refused(rt, alloc, site, Rule::NotAccounted(finding), text);
}

#[test]
fn findings(rt: HostRuntime) {
    let alloc = rt.alloc();
    let site = example_site(&rt, alloc);
    let lent =
        "{\"finding\":\"StillLent\",\"ok\":false,\"rule\":\"NotAccounted\",\"serial\":\"0000000001\"}";
    let serial = text(&rt, b"0000000001");
    expect_found(&rt, alloc, &site, Finding::StillLent(serial), lent);
    let open =
        "{\"finding\":\"UnitOpen\",\"ok\":false,\"rule\":\"NotAccounted\",\"sscc\":\"106141410000000019\"}";
    expect_found(&rt, alloc, &site, Finding::UnitOpen(sscc(&rt)), open);
}

#[test]
fn findings_of_a_line(rt: HostRuntime) {
    let alloc = rt.alloc();
    let site = example_site(&rt, alloc);
    assert_eq!(rt; site.stations.len(), 4);
    let silent =
        "{\"finding\":\"NotDeclared\",\"line\":\"L1\",\"ok\":false,\"rule\":\"NotAccounted\"}";
    expect_found(
        &rt,
        alloc,
        &site,
        Finding::NotDeclared(StationId(1)),
        silent,
    );
    let differs =
        "{\"counted\":[0,0,1],\"declared\":[0,0,0],\"finding\":\"DeclaredDiffers\",\"line\":\"L1\",\"ok\":false,\"rule\":\"NotAccounted\"}";
    let finding = Finding::DeclaredDiffers(StationId(1), [0, 0, 1], [0, 0, 0]);
    expect_found(&rt, alloc, &site, finding, differs);
}
