//! Encodes, decodes or digests a block of records again and again, or puts it on disks in memory or fetches it from them,
//! and prints how many bytes the block has and what came out.
#![tactic(auto)]

ghost use Rattle.std.specs.List.{AllByRecursion};
ghost use Rattle.hal_base.specs.Values.{FitsSchema};

use hal_base::{Kind, Kinds, Memory, Records, Schema};
use hal_outside::MemDisks;
use node_files::{Fetched, FileRef, fetch, put};
use node_names::Name;
use record_blocks::{decode, encode};
use sha2::{Digest, Sha256};
use std::alloc::Global;
use std::process::ExitCode;
use std::{env, io};

/// What is done again and again.
#[derive(Clone, Copy)]
enum Work {
    Encode,
    Decode,
    Digest,
    Put,
    Fetch,
}

/// The name of the file that is put and fetched.
const NAME: Name = Name::Blk { table: 0, block: 0 };

/// What the words ask for: whether keys are texts, what is done, how many records there are, and how often.
#[derive(Clone, Copy)]
struct Asked {
    texts: bool,
    work: Work,
    records: u32,
    passes: u32,
}

fn main(rt: HostRuntime) -> io::Result<ExitCode> {
    let Some(asked) = read_words(&rt)? else {
        return Ok(ExitCode::from(2));
    };
    let Ok((bytes, sum)) = run(rt.alloc(), &asked) else {
        return Ok(ExitCode::from(1));
    };
    println!(rt; "{bytes} {sum}")?;
    Ok(ExitCode::from(0))
}

/// The words after the program's name: `pairs` or `words`, what is done, the number of records and of passes.
fn read_words(rt: &HostRuntime) -> io::Result<Option<Asked>> {
    let mut words = env::args(rt)?;
    let _program = words.next();
    let (Some(kinds), Some(work)) = (words.next(), words.next()) else {
        return Ok(None);
    };
    let (Some(records), Some(passes)) = (words.next(), words.next()) else {
        return Ok(None);
    };
    let Some(work) = work_of(work.as_str()) else {
        return Ok(None);
    };
    let (Ok(records), Ok(passes)) = (records.parse::<u32>(), passes.parse::<u32>()) else {
        return Ok(None);
    };
    Ok(Some(Asked {
        texts: kinds.as_str() == "words",
        work,
        records,
        passes,
    }))
}

fn work_of(word: &str) -> Option<Work> {
    match word {
        "encode" => Some(Work::Encode),
        "decode" => Some(Work::Decode),
        "digest" => Some(Work::Digest),
        "put" => Some(Work::Put),
        "fetch" => Some(Work::Fetch),
        _ => None,
    }
}

/// How many bytes the block has, and the sum of what the passes gave.
fn run(alloc: Global, asked: &Asked) -> Result<(usize, usize), Memory> {
    let schema = schema_of(alloc, asked.texts)?;
    let bytes = block_of(alloc, asked.texts, asked.records)?;
    let sum = match asked.work {
        Work::Encode => encoded(alloc, bytes.as_slice(), &schema, asked.passes)?,
        Work::Decode => decoded(alloc, bytes.as_slice(), &schema, asked.passes)?,
        Work::Digest => digested(bytes.as_slice(), asked.passes),
        Work::Put => put_again(alloc, bytes.as_slice(), asked.passes)?,
        Work::Fetch => fetched(alloc, bytes.as_slice(), asked.passes)?,
    };
    Ok((bytes.len(), sum))
}

fn schema_of(alloc: Global, texts: bool) -> Result<Schema, Memory> {
    let mut fields = Kinds::new(alloc);
    fields.push(Kind::Int)?;
    let key = if texts { Kind::Text } else { Kind::Int };
    Ok(Schema { key, fields })
}

/// The block of so many records: of the numbers in order, or of one text, and of a number.
fn block_of(alloc: Global, texts: bool, records: u32) -> Result<Vec<u8>, Memory> {
    let mut block = Vec::with_capacity(alloc, 32)?;
    block.extend_from_slice(if texts { b"HLB1\x02TI" } else { b"HLB1\x02II" })?;
    block.extend_from_slice(&u64::from(records).to_be_bytes())?;
    for number in 0..records {
        if texts {
            block.extend_from_slice(b"\x0aabcdefghij")?;
        } else {
            block.extend_from_slice(&u64::from(number).to_be_bytes())?;
        }
        block.extend_from_slice(&77u64.to_be_bytes())?;
    }
    Ok(block)
}

/// The lengths of the records encoded again and again.
fn encoded(alloc: Global, bytes: &[u8], schema: &Schema, passes: u32) -> Result<usize, Memory> {
    match decode(alloc, bytes, schema)? {
        Some(rows) => encoded_rows(alloc, &rows, schema, passes),
        None => Ok(0),
    }
}

fn encoded_rows(
    alloc: Global,
    rows: &Records,
    schema: &Schema,
    passes: u32,
) -> Result<usize, Memory>
    requires { AllByRecursion (FitsSchema schema.now) rows.now }
{
    let mut sum = 0usize;
    for _pass in 0..passes {
        sum = sum.wrapping_add(encode(alloc, rows, schema)?.len());
    }
    Ok(sum)
}

/// How many records are decoded again and again.
fn decoded(alloc: Global, bytes: &[u8], schema: &Schema, passes: u32) -> Result<usize, Memory> {
    let mut sum = 0usize;
    for _pass in 0..passes {
        sum = sum.wrapping_add(count_in(alloc, bytes, schema)?);
    }
    Ok(sum)
}

fn count_in(alloc: Global, bytes: &[u8], schema: &Schema) -> Result<usize, Memory> {
    match decode(alloc, bytes, schema)? {
        Some(rows) => Ok(rows.len()),
        None => Ok(0),
    }
}

/// The first bytes of the digest, made again and again.
fn digested(bytes: &[u8], passes: u32) -> usize {
    let mut sum = 0usize;
    for _pass in 0..passes {
        let digest = Sha256::digest(bytes);
        sum = sum.wrapping_add(digest[0] as usize);
    }
    sum
}

/// The first bytes of the digests of a file that is put again and again.
fn put_again(alloc: Global, bytes: &[u8], passes: u32) -> Result<usize, Memory> {
    let mut disks = MemDisks::new(alloc);
    let mut sum = 0usize;
    for _pass in 0..passes {
        let file = put_on(alloc, &mut disks, bytes)?;
        sum = sum.wrapping_add(file.digest.0[0] as usize);
    }
    Ok(sum)
}

/// How many bytes come of a file that is put once and fetched again and again.
fn fetched(alloc: Global, bytes: &[u8], passes: u32) -> Result<usize, Memory> {
    let mut disks = MemDisks::new(alloc);
    let file = put_on(alloc, &mut disks, bytes)?;
    let mut sum = 0usize;
    for _pass in 0..passes {
        sum = sum.wrapping_add(count_fetched(alloc, &mut disks, &file)?);
    }
    Ok(sum)
}

// Disks in memory fail for want of memory alone.
fn put_on(alloc: Global, disks: &mut MemDisks, bytes: &[u8]) -> Result<FileRef, Memory> {
    put(alloc, disks, 0, &NAME, bytes).map_err(|_| Memory)
}

fn count_fetched(alloc: Global, disks: &mut MemDisks, file: &FileRef) -> Result<usize, Memory> {
    match fetch(alloc, disks, file) {
        Ok(Fetched::Bytes(bytes)) => Ok(bytes.len()),
        Ok(Fetched::Missed) => Ok(0),
        Err(_) => Err(Memory),
    }
}
