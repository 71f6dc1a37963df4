//! Recordings that a number makes.
ghost use Rattle.std.specs.Prelude.{◌≡◌, ◌++◌, ◌<◌, IfOk, OnOk, decimal};
ghost use Rattle.conn_record.specs.Records.{record_text};
ghost use Rattle.conn_record.specs.Generator.{path, lines, hex_digit, letters, after, chunk, chunked_post, sized_post, bare_request, after_body, request_text, after_request, requests_text, after_requests, generated};

use crate::generator::Generator;
use crate::print::push_conn;
use itoa::Buffer;
use kj_base::{Bytes, NoMemory};
use std::alloc::Global;

// Which request of which connection.
#[derive(Clone, Copy, Debug, PartialEq, Eq)]
struct Place {
    conn: u32,
    request: u32,
}

fn push_number(out: &mut Bytes, n: u32) -> Result<(), NoMemory>
    ensures { OnOk result (out.new ≡ out.old ++ decimal n) }
{
    let mut buffer = Buffer::new();
    out.extend(buffer.format(n).as_bytes())
}

#[tactic(auto, unfolding(crate::specs::Generator::path))]
fn push_path(out: &mut Bytes, place: Place) -> Result<(), NoMemory>
    ensures { OnOk result (out.new ≡ out.old ++ path place.conn place.request) }
{
    out.push(b'/')?;
    push_number(out, place.conn)?;
    out.push(b'/')?;
    push_number(out, place.request)
}

// Appends the request line and the Host line.
#[tactic(auto, unfolding(crate::specs::Generator::lines))]
fn push_lines(out: &mut Bytes, method: &[u8], place: Place) -> Result<(), NoMemory>
    ensures { OnOk result (out.new ≡ out.old ++ lines method.now place.conn place.request) }
{
    out.extend(method)?;
    out.push(b' ')?;
    push_path(out, place)?;
    out.extend(b" HTTP/1.1\r\nHost: kj.test\r\n")
}

fn hex_digit(n: u8) -> u8
    requires { n < 16 }
    ensures { result ≡ hex_digit n }
{
    if n < 10 { b'0' + n } else { b'a' - 10 + n }
}

// Appends a chunk of so many letters, and nothing where there are none.
#[tactic(auto, unfolding(crate::specs::Generator::chunk))]
fn push_chunk(out: &mut Bytes, size: u8, generator: &mut Generator) -> Result<(), NoMemory>
    requires { size < 16 }
    ensures text { OnOk result (out.new ≡ out.old
        ++ chunk size (letters size generator.old.state)) }
    ensures after { OnOk result (generator.new.state ≡ after size generator.old.state) }
{
    if size == 0 {
        return Ok(());
    }
    out.push(hex_digit(size))?;
    out.extend(b"\r\n")?;
    generator.push_letters(size, out)?;
    out.extend(b"\r\n")
}

#[tactic(auto, unfolding(crate::specs::Generator::chunked_post))]
fn push_chunked_post(
    out: &mut Bytes,
    place: Place,
    generator: &mut Generator,
) -> Result<(), NoMemory>
    ensures text { OnOk result (out.new ≡ out.old
        ++ chunked_post place.conn place.request generator.old.state) }
    ensures after { OnOk result (generator.new.state ≡ after_body generator.old.state) }
{
    let size = generator.draw_size();
    push_lines(out, b"POST", place)?;
    out.extend(b"Transfer-Encoding: chunked\r\n\r\n")?;
    push_chunk(out, size, generator)?;
    out.extend(b"0\r\n\r\n")
}

#[tactic(auto, unfolding(crate::specs::Generator::sized_post))]
fn push_sized_post(out: &mut Bytes, place: Place, generator: &mut Generator) -> Result<(), NoMemory>
    ensures text { OnOk result (out.new ≡ out.old
        ++ sized_post place.conn place.request generator.old.state) }
    ensures after { OnOk result (generator.new.state ≡ after_body generator.old.state) }
{
    let size = generator.draw_size();
    push_lines(out, b"POST", place)?;
    out.extend(b"Content-Length: ")?;
    push_number(out, u32::from(size))?;
    out.extend(b"\r\n\r\n")?;
    generator.push_letters(size, out)
}

fn push_bare_request(out: &mut Bytes, method: &[u8], place: Place) -> Result<(), NoMemory>
    ensures { OnOk result (out.new ≡ out.old ++ bare_request method.now place.conn place.request) }
{
    push_lines(out, method, place)?;
    out.extend(b"\r\n")
}

// Appends a request. An `Err` may leave a part of it.
#[tactic(auto, unfolding(crate::specs::Generator::request_text, crate::specs::Generator::after_request))]
fn push_request(out: &mut Bytes, place: Place, generator: &mut Generator) -> Result<(), NoMemory>
    ensures text { OnOk result (out.new ≡ out.old
        ++ request_text place.conn place.request generator.old.state) }
    ensures after { OnOk result (generator.new.state ≡ after_request generator.old.state) }
{
    match generator.draw() % 4 {
        0 => push_chunked_post(out, place, generator),
        1 => push_sized_post(out, place, generator),
        2 => push_bare_request(out, b"GET", place),
        _ => push_bare_request(out, b"HEAD", place),
    }
}

// Appends the requests of a connection.
fn push_requests(
    out: &mut Bytes,
    conn: u32,
    requests: u32,
    generator: &mut Generator,
) -> Result<(), NoMemory>
    ensures text { OnOk result (out.new ≡ out.old
        ++ requests_text conn 0 requests generator.old.state) }
    ensures after { OnOk result (generator.new.state
        ≡ after_requests requests generator.old.state) }
{
    for request in 0..requests {
        push_request(out, Place { conn, request }, generator)?;
    }
    Ok(())
}

/// The recording that a number makes, with so many connections of so many requests each.
pub fn make_recording(
    alloc: Global,
    number: u64,
    conns: u32,
    requests: u32,
) -> Result<Bytes, NoMemory>
    ensures { IfOk result (λ text. text ≡ record_text (generated number conns requests)) }
{
    let mut generator = Generator { state: number };
    let mut out = Bytes::from_slice(alloc, b"kjrec 1\n")?;
    for conn in 0..conns {
        let mut octets = Bytes::new(alloc);
        push_requests(&mut octets, conn, requests, &mut generator)?;
        push_conn(&mut out, octets.as_slice())?;
    }
    Ok(out)
}
