//! The text of a request.
ghost use Rattle.std.specs.Prelude.{◌≡◌, ◌++◌, All, IfOk, OnOk, codes};
ghost use Rattle.std.specs.List.{list_all};
ghost use Rattle.httparse.specs.Grammar.{is_value_byte};
ghost use Rattle.http_header.specs.FieldName.{is_field_name};
ghost use Rattle.url.specs.Parts.{Parts, IsValid};
ghost use Rattle.link_http.specs.Request.{line, fields_text, sent_text, is_sent, is_own_name, field_line, port_text, range_line, request, target_of, to_target};
ghost use Rattle.link_http.specs.Sending.{IsClean, IsWholeText};

use crate::header::Header;
use http_header::{HeaderName, HeaderNameError, HeaderValue, HeaderValueError};
use itoa::Buffer;
use std::alloc::Global;
use text_base::OutOfMemory;
use url::Url;

/// The text of a request for what a URL names, from a place on.
pub fn request_text(
    alloc: Global,
    host: &str,
    port: u16,
    url: &Url,
    headers: &[Header],
    from: u64,
) -> Result<Vec<u8>, OutOfMemory>
    requires host { All IsClean host.now }
    requires valid { IsValid url.now }
    ensures text { let to = to_target host.now port url.now in
        IfOk result (λ text. text.items ≡ request to headers.now from) }
    ensures whole { IfOk result (λ text. IsWholeText text.items) }
{
    let mut text = Vec::new(alloc);
    put_target(&mut text, url)?;
    put_host(&mut text, host, port)?;
    put_fields(alloc, &mut text, headers)?;
    text.extend_from_slice(b"Accept-Encoding: identity\r\n")?;
    put_range(&mut text, from)?;
    text.extend_from_slice(b"Connection: close\r\n")?;
    text.extend_from_slice(b"\r\n")?;
    Ok(text)
}

/// The line with the method and the target.
pub fn put_target(text: &mut Vec<u8>, url: &Url) -> Result<(), OutOfMemory>
    ensures { let target = line (codes "GET " ++ target_of url.now ++ codes " HTTP/1.1") in
        OnOk result (text.new.items ≡ text.old.items ++ target) }
{
    text.extend_from_slice(b"GET ")?;
    text.extend_from_slice(url.path().as_bytes())?;
    if let Some(query) = url.query() {
        text.extend_from_slice(b"?")?;
        text.extend_from_slice(query.as_bytes())?;
    }
    text.extend_from_slice(b" HTTP/1.1\r\n")?;
    Ok(())
}

/// The line with the host, and the port unless it is 80.
fn put_host(text: &mut Vec<u8>, host: &str, port: u16) -> Result<(), OutOfMemory>
    ensures { let host = line (codes "Host: " ++ host.now ++ port_text port) in
        OnOk result (text.new.items ≡ text.old.items ++ host) }
{
    text.extend_from_slice(b"Host: ")?;
    text.extend_from_slice(host.as_bytes())?;
    if port != 80 {
        let mut buffer = Buffer::new();
        text.extend_from_slice(b":")?;
        text.extend_from_slice(buffer.format(port).as_bytes())?;
    }
    text.extend_from_slice(b"\r\n")?;
    Ok(())
}

/// The line with the range, unless it is the whole.
fn put_range(text: &mut Vec<u8>, from: u64) -> Result<(), OutOfMemory>
    ensures { OnOk result (text.new.items ≡ text.old.items ++ range_line from) }
{
    if from == 0 {
        return Ok(());
    }
    let mut buffer = Buffer::new();
    text.extend_from_slice(b"Range: bytes=")?;
    text.extend_from_slice(buffer.format(from).as_bytes())?;
    text.extend_from_slice(b"-\r\n")?;
    Ok(())
}

/// The fields of a piece that are sent.
fn put_fields(alloc: Global, text: &mut Vec<u8>, headers: &[Header]) -> Result<(), OutOfMemory>
    ensures { OnOk result (text.new.items ≡ text.old.items ++ fields_text headers.now) }
{
    for header in headers {
        put_if_sent(alloc, text, header)?;
    }
    Ok(())
}

/// A field, if it is sent.
fn put_if_sent(alloc: Global, text: &mut Vec<u8>, header: &Header) -> Result<(), OutOfMemory>
    ensures { OnOk result (text.new.items ≡ text.old.items ++ sent_text header.now) }
{
    if is_sent(alloc, header)? {
        return put_field(text, header);
    }
    Ok(())
}

fn put_field(text: &mut Vec<u8>, header: &Header) -> Result<(), OutOfMemory>
    ensures { OnOk result (text.new.items ≡ text.old.items ++ field_line header.now) }
{
    text.extend_from_slice(header.name.as_str().as_bytes())?;
    text.extend_from_slice(b": ")?;
    text.extend_from_slice(header.value.as_str().as_bytes())?;
    text.extend_from_slice(b"\r\n")?;
    Ok(())
}

/// Whether a field is valid, and none of those that are sent anyway.
fn is_sent(alloc: Global, header: &Header) -> Result<bool, OutOfMemory>
    ensures { IfOk result (λ sent. sent ≡ is_sent header.now) }
{
    let named = is_name(alloc, header.name.as_str().as_bytes())?;
    let valued = is_value(alloc, header.value.as_str().as_bytes())?;
    Ok(named && valued && !is_own_name(header.name.as_str()))
}

/// Whether bytes are the name of a field.
fn is_name(alloc: Global, bytes: &[u8]) -> Result<bool, OutOfMemory>
    ensures { IfOk result (λ is. is ≡ is_field_name bytes.now) }
{
    match HeaderName::from_bytes(alloc, bytes) {
        Ok(_) => Ok(true),
        Err(HeaderNameError::Invalid) => Ok(false),
        Err(HeaderNameError::OutOfMemory) => Err(OutOfMemory),
    }
}

/// Whether bytes are the value of a field.
fn is_value(alloc: Global, bytes: &[u8]) -> Result<bool, OutOfMemory>
    ensures { IfOk result (λ is. is ≡ list_all is_value_byte bytes.now) }
{
    match HeaderValue::from_bytes(alloc, bytes) {
        Ok(_) => Ok(true),
        Err(HeaderValueError::Invalid) => Ok(false),
        Err(HeaderValueError::OutOfMemory) => Err(OutOfMemory),
    }
}

/// Whether a field of this name is sent anyway, or never.
fn is_own_name(name: &str) -> bool
    ensures { result ≡ is_own_name name.now }
{
    name.eq_ignore_ascii_case("host")
        || name.eq_ignore_ascii_case("range")
        || name.eq_ignore_ascii_case("connection")
        || name.eq_ignore_ascii_case("accept-encoding")
        || name.eq_ignore_ascii_case("content-length")
        || name.eq_ignore_ascii_case("transfer-encoding")
}
