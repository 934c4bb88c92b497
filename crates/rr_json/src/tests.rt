// The refusal of a whole file. What is said of events is tried on the built program, by tests/run --calendars.
use crate::print_json_refusal;
use rr_facts::{Facts, FileFacts};
use rr_model::Side;
use rr_seam::FileRefusal;
use std::test::*;

// A comparison of a file of three bytes with one of none.
fn facts() -> Facts<'static> {
    Facts {
        version: "0.20.0",
        old: FileFacts {
            name: "old \"1\".ics",
            language: "ics",
            offset: None,
            bytes: b"abc",
        },
        new: FileFacts {
            name: "new.json",
            language: "graph",
            offset: Some(-12_600),
            bytes: b"",
        },
        only_differences: false,
        strict: true,
        by_uid: false,
        zones: Some("zones.ics"),
    }
}

const FILES: &str = "\
    \"new\":{\"bytes\":0,\"language\":\"graph\",\"name\":\"new.json\",\"offset\":\"-03:30\",\
    \"sha256\":\"e3b0c44298fc1c149afbf4c8996fb92427ae41e4649b934ca495991b7852b855\"},\
    \"old\":{\"bytes\":3,\"language\":\"ics\",\"name\":\"old \\\"1\\\".ics\",\"offset\":null,\
    \"sha256\":\"ba7816bf8f01cfea414140de5dae2223b00361a396177a9cb410ff61f20015ad\"},\
    \"options\":{\"by_uid\":false,\"differences\":false,\"strict\":true,\"zones\":\"zones.ics\"},";

const REFUSED: &str = "\
    \"refused\":{\"advice\":\"The file is no JSON in UTF-8, or it is cut off. Export it again as a whole.\",\"refusal\":\"BadJson\",\"side\":\"A\"},\
    \"status\":2,\"version\":\"0.20.0\"}\n";

#[test]
fn a_refused_file(rt: HostRuntime) {
    let alloc = rt.alloc();
    let text = print_json_refusal(alloc, &facts(), Side::A, FileRefusal::BadJson).expect(
        &rt, "memory",
    );
    let wanted = ["{", FILES, REFUSED].concat(alloc).expect(&rt, "memory");
    assert_eq!(rt; str::from_utf8(&text).expect(&rt, "text"), wanted.as_str());
}

#[test]
fn a_number_behind_a_refusal(rt: HostRuntime) {
    let alloc = rt.alloc();
    let text = print_json_refusal(alloc, &facts(), Side::B, FileRefusal::BadLine(7)).expect(
        &rt, "memory",
    );
    let text = str::from_utf8(&text).expect(&rt, "text");
    assert!(rt; text.contains("\"refusal\":\"BadLine 7\",\"side\":\"B\""));
}
