//! Tries over a dialer in memory.
use super::sink::Sink;
use link_http::{DialerMem, Fetched, Page, Piece, PieceFault, Turn, fetch_from, leads_over_http};
use std::alloc::Global;
use std::process::Abort;
use std::test::Fail;
use text_base::Text;

fn dialer(alloc: Global, turn: Turn) -> Result<DialerMem, Fail> {
    let mut world = Vec::new(alloc);
    world.push(Page {
        url: Text::new(alloc, "http://127.0.0.1/other")?,
        bytes: b"xyz".to_vec(alloc)?,
    })?;
    world.push(Page {
        url: Text::new(alloc, "http://127.0.0.1:80/v?q")?,
        bytes: b"abcdef".to_vec(alloc)?,
    })?;
    let mut script = Vec::new(alloc);
    script.push(turn)?;
    Ok(DialerMem::new(alloc, world, script)?)
}

/// The first try, at this turn, gives this answer and these bytes.
fn first_gives(
    rt: &(impl Abort + AllocGlobal),
    turn: Turn,
    url: &str,
    from: u64,
    answer: Result<Fetched, PieceFault>,
    bytes: &[u8],
) -> Result<(), Fail> {
    let alloc = rt.alloc();
    let mut dialer = dialer(alloc, turn)?;
    let mut sink = Sink {
        bytes: Vec::new(alloc),
    };
    let piece = Piece {
        url: Text::new(alloc, url)?,
        headers: Vec::new(alloc),
    };
    let mut known = None;
    let got = fetch_from(alloc, &mut dialer, &piece, from, &mut known, &mut sink);
    assert_eq!(rt; got, answer);
    assert_eq!(rt; sink.bytes.as_slice(), bytes);
    Ok(())
}

#[test]
fn turns_are_taken(rt: HostRuntime) -> Result<(), Fail> {
    let rt = &rt;
    let url = "http://127.0.0.1/v?q#top";
    let total = Ok(Fetched { total: 6 });
    first_gives(rt, Turn::Honest, url, 3, total, b"def")?;
    first_gives(rt, Turn::Whole, url, 3, total, b"def")?;
    let cut = Err(PieceFault::CutShort {
        got: 3,
        told: Some(6),
    });
    first_gives(rt, Turn::Cut(3), url, 0, cut, b"abc")?;
    first_gives(
        rt,
        Turn::Status(503),
        url,
        0,
        Err(PieceFault::Status { code: 503 }),
        b"",
    )?;
    first_gives(rt, Turn::SendFails, url, 0, Err(PieceFault::Send), b"")?;
    first_gives(rt, Turn::RecvFails(0), url, 0, Err(PieceFault::Recv), b"")?;
    // What one recv brought whole is not waited for any longer.
    first_gives(rt, Turn::RecvFails(1), url, 0, total, b"abcdef")?;
    let raw = b"HTTP/1.1 206 Partial Content\r\nContent-Range: bytes 2-5/6\r\n\r\ncdef".to_vec(
        rt.alloc(),
    )?;
    let elsewhere = Err(PieceFault::BadRange {
        asked: 3,
        told: Some(2),
    });
    first_gives(rt, Turn::Raw(raw), url, 3, elsewhere, b"")?;
    Ok(())
}

#[test]
fn urls_are_judged_before_the_dial(rt: HostRuntime) -> Result<(), Fail> {
    let rt = &rt;
    let missing = Err(PieceFault::Status { code: 404 });
    first_gives(rt, Turn::Honest, "http://127.0.0.1/v", 0, missing, b"")?;
    first_gives(rt, Turn::DialFails, "no URL", 0, Err(PieceFault::Url), b"")?;
    first_gives(
        rt,
        Turn::DialFails,
        "ftp://127.0.0.1/v?q",
        0,
        Err(PieceFault::Scheme),
        b"",
    )?;
    Ok(())
}

#[test]
fn urls_lead_over_http(rt: HostRuntime) -> Result<(), Fail> {
    for (url, leads) in [
        ("http://127.0.0.1:8080/v?q", true),
        ("https://127.0.0.1/v?q", false),
        ("/v?q", false),
    ] {
        assert_eq!(rt; leads_over_http(rt.alloc(), url)?, leads, "{url}");
    }
    Ok(())
}

#[test]
fn later_dials_are_honest(rt: HostRuntime) -> Result<(), Fail> {
    let alloc = rt.alloc();
    let mut dialer = dialer(alloc, Turn::Cut(2))?;
    let mut sink = Sink {
        bytes: Vec::new(alloc),
    };
    let piece = Piece {
        url: Text::new(alloc, "http://127.0.0.1/v?q")?,
        headers: Vec::new(alloc),
    };
    let mut known = None;
    let cut = Err(PieceFault::CutShort {
        got: 2,
        told: Some(6),
    });
    assert_eq!(rt;
        fetch_from(alloc, &mut dialer, &piece, 0, &mut known, &mut sink),
        cut
    );
    assert_eq!(rt;
        fetch_from(alloc, &mut dialer, &piece, 2, &mut known, &mut sink),
        Ok(Fetched { total: 6 })
    );
    assert_eq!(rt; sink.bytes.as_slice(), b"abcdef".as_slice());
    assert_eq!(rt; dialer.asked().len(), 2);
    super::crosses_threads(&dialer);
    super::crosses_threads(&piece);
    Ok(())
}
