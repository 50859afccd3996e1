//! Finds of a thousand contexts on eight hosts, in an order that a generator makes.
//!
//! The words are FINDS [RUNS]. Without RUNS it prints how many contexts were found where it looked. With RUNS it prints a line for
//! each run: the nanoseconds of so many finds, and how many were found.
#![tactic(auto)]

use context_queue::Entry;
use host_map::{Found, HostStore};
use std::alloc::Global;
use std::time::{Clock, Instant};
use std::{env, io};
use wave_base::{Children, Class, OutOfMemory, Path, Record, Seq, Step};

// A word of the command line, as a number.
fn number(word: Option<String>) -> Option<u32> {
    word?.as_str().parse::<u32>().ok()
}

// The path of the context with this number: ten stalls in each hall.
fn path(number: u32) -> Path {
    let hall = Step {
        class: Class(1),
        key: i64::from(number / 10),
    };
    let stall = Step {
        class: Class(2),
        key: i64::from(number % 10),
    };
    Path::root().child(hall).child(stall)
}

fn entry(alloc: Global) -> Entry {
    let record = Record {
        fields: Seq::new(alloc),
        children: Children::new(alloc),
    };
    Entry::new(alloc, record)
}

// A host with every eighth of a thousand contexts, from this one on.
fn host(alloc: Global, first: u32) -> Result<HostStore, OutOfMemory> {
    let mut store = HostStore::new(alloc);
    for number in 0..1000 {
        if number % 8 == first {
            store.reserve()?;
            store.birth(path(number), entry(alloc));
        }
    }
    Ok(store)
}

fn all_hosts(alloc: Global) -> Result<Vec<HostStore>, OutOfMemory> {
    let mut hosts = Vec::new(alloc);
    for first in 0..8 {
        hosts.push(host(alloc, first)?)?;
    }
    Ok(hosts)
}

fn all_paths(alloc: Global) -> Result<Vec<Path>, OutOfMemory> {
    let mut paths = Vec::new(alloc);
    for number in 0..1000 {
        paths.push(path(number))?;
    }
    Ok(paths)
}

// How many of so many contexts are found on the hosts where they are looked for.
fn found_count(hosts: &[HostStore], paths: &[Path], finds: u32) -> u32 {
    let mut x: u64 = 1;
    let mut found: u32 = 0;
    for _ in 0..finds {
        x = x
            .wrapping_mul(6364136223846793005)
            .wrapping_add(1442695040888963407);
        let host = hosts.get((x >> 61) as usize);
        let path = paths.get(((x >> 33) % 1000) as usize);
        if let (Some(host), Some(path)) = (host, path) {
            if host.find(path) == Found::Here {
                found = found.wrapping_add(1);
            }
        }
    }
    found
}

fn main(rt: HostRuntime) -> io::Result<()> {
    let mut words = env::args(&rt)?;
    words.next();
    let Some(finds) = number(words.next()) else {
        return println!(rt; "words: FINDS [RUNS]");
    };
    let alloc = rt.alloc();
    let (Ok(hosts), Ok(paths)) = (all_hosts(alloc), all_paths(alloc)) else {
        return println!(rt; "out of memory");
    };
    let Some(runs) = number(words.next()) else {
        let found = found_count(&hosts, &paths, finds);
        return println!(rt; "found {found}");
    };
    for _ in 0..runs {
        let start = Instant::now(&rt)?;
        let found = found_count(&hosts, &paths, finds);
        let took = start.elapsed(&rt)?.as_nanos();
        println!(rt; "{took} {found}")?;
    }
    Ok(())
}
