//! What is known of a server before cases are judged: by two requests, or by what was recorded. Definitions:
//! `specs/Program.antt`.

ghost use Rattle.std.specs.Prelude.{◌≡◌, ◌⊎◌, IfErr, IfOk, None, Some, map, option_map, true};
ghost use Rattle.h2_cmd_batch.specs.declared.fault.BenchFault.TheVariants.{NoMemory, Read, Socket};
ghost use Rattle.h2_cmd_against.specs.Aims.{aimed_by};
ghost use Rattle.h2_cmd_against.specs.Servers.{Surveys};
ghost use Rattle.h2_cmd_against.specs.Program.{IsRecorded, Knows, Misses, case_names, recorded_octets};

use crate::aim::Aim;
use crate::server::{Server, survey};
use h2_cmd_batch::BenchFault;
use h2_cmd_book_file::{Files, FilesFault};
use h2_cmd_exchange::link::Link;
use h2_io::{MAX_INPUT, read_hex};
use std::alloc::{AllocError, Global};

/// The octets that a text has: those that it spells in hex, or as they are where it is no hex.
fn recorded_in(alloc: Global, text: Vec<u8>) -> Result<Vec<u8>, AllocError>
    ensures { IfOk result (λ octets. octets.items ≡ recorded_octets text.items) }
{
    match read_hex(alloc, text.as_slice())? {
        Some(octets) => Ok(octets),
        None => Ok(text),
    }
}

/// The octets of a file that were recorded.
fn recorded_at<F: Files>(alloc: Global, files: &mut F, path: &str) -> Result<Vec<u8>, BenchFault>
    ensures octets { F.is_printed files.old ≡ true → IfOk result (λ octets. option_map recorded_octets (F.file files.old path.now) ≡ Some octets.items) }
    ensures fault { IfErr result (λ fault. (fault ≡ NoMemory) ⊎ (fault ≡ Read)) }
    ensures same_printed { F.is_printed files.new ≡ F.is_printed files.old }
    ensures same_files { F.file files.new ≡ F.file files.old }
{
    match files.read(alloc, path, MAX_INPUT) {
        Ok(text) => match recorded_in(alloc, text) {
            Ok(octets) => Ok(octets),
            Err(_) => Err(BenchFault::NoMemory),
        },
        Err(FilesFault::NoMemory) => Err(BenchFault::NoMemory),
        Err(FilesFault::Failed | FilesFault::TooLong) => Err(BenchFault::Read),
    }
}

/// What is known of a server of which octets were recorded, by the files that have those of both directions.
fn recorded_server<F: Files>(
    alloc: Global,
    files: &mut F,
    client: &str,
    server: &str,
) -> Result<Server, BenchFault>
    ensures octets { F.is_printed files.old ≡ true → IfOk result (IsRecorded (F.file files.old) client.now server.now) }
    ensures fault { IfErr result (λ fault. (fault ≡ NoMemory) ⊎ (fault ≡ Read)) }
    ensures same_printed { F.is_printed files.new ≡ F.is_printed files.old }
    ensures same_files { F.file files.new ≡ F.file files.old }
{
    let sent = recorded_at(alloc, files, client)?;
    let octets = recorded_at(alloc, files, server)?;
    Ok(Server {
        octets,
        get: 0,
        post: 0,
        client: Some(sent),
    })
}

/// What is known of a server that listens.
fn surveyed_server<L: Link>(alloc: Global, aim: Aim<'_>, link: &mut L) -> Result<Server, BenchFault>
    ensures known { IfOk result (λ server. Surveys (aimed_by aim.entry) (L.log link.old) (Some server) (L.log link.new)) }
    ensures fault { IfErr result (λ fault. (fault ≡ NoMemory) ⊎ ((fault ≡ Socket) × Surveys (aimed_by aim.entry) (L.log link.old) None (L.log link.new))) }
{
    match survey(alloc, aim, link) {
        Ok(Some(server)) => Ok(server),
        Ok(None) => Err(BenchFault::Socket),
        Err(_) => Err(BenchFault::NoMemory),
    }
}

/// What is known of the server that is judged: by what was recorded in the first two of these files, or by two requests.
///
/// # Errors
///
/// `Read` where one of the two files can't be read, `Socket` where nothing listens; `NoMemory` where memory is refused.
pub fn server_for<F: Files, L: Link>(
    alloc: Global,
    aim: Aim<'_>,
    is_recorded: bool,
    names: &[&str],
    files: &mut F,
    link: &mut L,
) -> Result<Server, BenchFault>
    ensures known { F.is_printed files.old ≡ true → IfOk result (λ server. Knows (aimed_by aim.entry) is_recorded (F.file files.old) (map (λ n. n.now) names.now)
        (L.log link.old) server (L.log link.new)) }
    ensures fault { IfErr result (λ fault. (fault ≡ NoMemory) ⊎ Misses (aimed_by aim.entry) is_recorded (L.log link.old) fault (L.log link.new)) }
    ensures same_printed { F.is_printed files.new ≡ F.is_printed files.old }
    ensures same_files { F.file files.new ≡ F.file files.old }
{
    if !is_recorded {
        return surveyed_server(alloc, aim, link);
    }
    match names {
        [client, server, ..] => recorded_server(alloc, files, client, server),
        _ => Err(BenchFault::Read),
    }
}

/// The files that have cases: those after the two with what was recorded, if there are such.
pub fn case_names<'n, 'a>(is_recorded: bool, names: &'n [&'a str]) -> &'n [&'a str]
    ensures { result.now ≡ case_names is_recorded names.now }
{
    if !is_recorded {
        return names;
    }
    if names.len() < 2 {
        return &[];
    }
    &names[2..]
}
