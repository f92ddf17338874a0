//! Command lines as a user writes them.

use dem_model::Turn;
use dem_words::{Mode, Order, WordFault, read_words};
use std::alloc::{AllocError, Global};
use std::test::Fail;

// What these words give.
fn read(alloc: Global, words: &[&str]) -> Result<Result<Order, WordFault>, AllocError> {
    let mut texts = Vec::new(alloc);
    for word in words {
        texts.push(String::from_str(alloc, word)?)?;
    }
    Ok(read_words(alloc, texts.as_slice()))
}

#[test]
fn leaves_the_defaults(rt: HostRuntime) -> Result<(), Fail> {
    let order = read(rt.alloc(), &["dem", "plain"])?.expect(&rt, "an order");
    assert_eq!(rt; order.mode, Mode::Plain);
    assert_eq!(rt; order.drift, 20);
    assert_eq!(rt; order.bin, 0);
    assert_eq!(rt; order.turns.len(), 0);
    assert_eq!(rt; order.seed, 1);
    assert_eq!(rt; order.count, 100);
    assert!(rt; !order.report && !order.split);
    Ok(())
}

#[test]
fn reads_digits_and_letters(rt: HostRuntime) -> Result<(), Fail> {
    let words = [
        "dem",
        "--report",
        "sched",
        "--drift=007",
        "--turns",
        "ptdcs",
    ];
    let order = read(rt.alloc(), words.as_slice())?.expect(&rt, "an order");
    assert_eq!(rt; order.mode, Mode::Sched);
    assert_eq!(rt; order.drift, 7);
    let turns = [
        Turn::Post,
        Turn::Take,
        Turn::Deliver,
        Turn::Collect,
        Turn::Step,
    ];
    assert_eq!(rt; order.turns.as_slice(), turns.as_slice());
    assert!(rt; order.report && !order.split);
    Ok(())
}

#[test]
fn takes_the_greatest_numbers(rt: HostRuntime) -> Result<(), Fail> {
    let numbers = ["--drift", "1024", "--bin", "274877906944"];
    let made = ["--count", "16384", "--seed", "18446744073709551615"];
    let mut words = Vec::new(rt.alloc());
    for word in ["dem", "sched", "--split"]
        .iter()
        .chain(numbers.iter())
        .chain(made.iter())
    {
        words.push(*word)?;
    }
    let order = read(rt.alloc(), words.as_slice())?.expect(&rt, "an order");
    assert_eq!(rt; order.mode, Mode::Sched);
    assert_eq!(rt; order.drift, 1024);
    assert_eq!(rt; order.bin, 1 << 38);
    assert_eq!(rt; order.count, 16_384);
    assert_eq!(rt; order.seed, 18_446_744_073_709_551_615);
    assert!(rt; order.split && !order.report);
    Ok(())
}

#[test]
fn refuses_what_the_command_refuses(rt: HostRuntime) -> Result<(), Fail> {
    for words in [
        ["dem"].as_slice(),
        ["dem", "plain", "more"].as_slice(),
        ["dem", "--help"].as_slice(),
        ["dem", "plain", "-h"].as_slice(),
        ["dem", "help"].as_slice(),
        ["dem", "plain", "--fly"].as_slice(),
        ["dem", "sched", "--drift"].as_slice(),
        ["dem", "sched", "--drift", "1", "--drift", "1"].as_slice(),
        ["dem", "sched", "--report", "--report"].as_slice(),
        ["dem", "sched", "--report=true"].as_slice(),
    ] {
        assert!(rt; matches!(read(rt.alloc(), words)?, Err(WordFault::Usage)));
    }
    Ok(())
}

#[test]
fn refuses_a_wrong_value(rt: HostRuntime) -> Result<(), Fail> {
    for words in [
        ["dem", "fly"].as_slice(),
        ["dem", "Plain"].as_slice(),
        ["dem", "sched", "--drift", "1025"].as_slice(),
        ["dem", "sched", "--drift", "+7"].as_slice(),
        ["dem", "sched", "--drift="].as_slice(),
        ["dem", "sched", "--bin", "274877906945"].as_slice(),
        ["dem", "sched", "--turns", "px"].as_slice(),
        ["dem", "sched", "--seed", "18446744073709551616"].as_slice(),
        ["dem", "sched", "--count", "0"].as_slice(),
        ["dem", "sched", "--count", "16385"].as_slice(),
    ] {
        assert!(rt; matches!(read(rt.alloc(), words)?, Err(WordFault::Usage)));
    }
    Ok(())
}
