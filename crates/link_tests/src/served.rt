//! Worked requests, paths and heads of the server of files. Its shell over sockets is tried by `whole_tests`.
use file_server::{ByteRange, Reply, file_path, read_request};
use std::test::Fail;

const FROM_THREE: ByteRange = ByteRange {
    first: 3,
    last: None,
};

#[test]
fn requests_are_read(rt: HostRuntime) -> Result<(), Fail> {
    let head = b"GET /a%20b?c HTTP/1.1\r\nHost: h\r\nrange: Bytes=3-\r\n\r\n";
    let asked = read_request(head).ok_or("no request")?;
    assert_eq!(rt; asked.target, b"/a%20b?c".as_slice());
    assert_eq!(rt; asked.range, Some(FROM_THREE));
    assert!(rt; read_request(b"PUT / HTTP/1.1\r\n\r\n").is_none());
    assert!(rt; read_request(b"GET / HTTP/1.1\r\n").is_none());
    Ok(())
}

#[test]
fn ranges_are_read(rt: HostRuntime) -> Result<(), Fail> {
    let bounded = Some(ByteRange {
        first: 0,
        last: Some(499),
    });
    for (value, range) in [
        ("bytes=0-499", bounded),
        ("bytes=3-", Some(FROM_THREE)),
        ("bytes=-500", None),
        ("bytes=5", None),
        ("items=3-", None),
        ("bytes=0-0,-1", None),
    ] {
        let head = format!(in rt.alloc(); "GET / HTTP/1.1\r\nRange: {value}\r\n\r\n")?;
        let asked = read_request(head.as_bytes()).ok_or("no request")?;
        assert_eq!(rt; asked.range, range, "{value}");
    }
    Ok(())
}

#[test]
fn targets_name_files_below(rt: HostRuntime) -> Result<(), Fail> {
    for (target, path) in [
        ("/a%20b/c.txt?x=/..", Some("a b/c.txt")),
        ("/..%2Fsecret", None),
        ("/a/../b", None),
        ("//etc/passwd", None),
        ("/a..b/..c", Some("a..b/..c")),
        ("/%00", None),
        ("/%FF", None),
        ("a", None),
    ] {
        let found = file_path(rt.alloc(), target.as_bytes())?;
        assert_eq!(rt; found.as_ref().map(|path| path.as_str()), path, "{target}");
    }
    Ok(())
}

#[test]
fn replies_of_six_bytes(rt: HostRuntime) -> Result<(), Fail> {
    let past = ByteRange {
        first: 6,
        last: None,
    };
    let back = ByteRange {
        first: 3,
        last: Some(2),
    };
    for (range, size, head) in [
        (
            None,
            Some(6),
            "HTTP/1.1 200 OK\r\nContent-Length: 6\r\nConnection: close\r\n\r\n",
        ),
        (
            Some(back),
            Some(6),
            "HTTP/1.1 200 OK\r\nContent-Length: 6\r\nConnection: close\r\n\r\n",
        ),
        (
            Some(FROM_THREE),
            Some(6),
            "HTTP/1.1 206 Partial Content\r\nContent-Range: bytes 3-5/6\r\nContent-Length: 3\r\nConnection: close\r\n\r\n",
        ),
        (
            Some(past),
            Some(6),
            "HTTP/1.1 416 Range Not Satisfiable\r\nContent-Range: bytes */6\r\nContent-Length: 0\r\nConnection: close\r\n\r\n",
        ),
        (
            Some(past),
            None,
            "HTTP/1.1 404 Not Found\r\nContent-Length: 0\r\nConnection: close\r\n\r\n",
        ),
    ] {
        let text = Reply::new(range, size).head(rt.alloc())?;
        assert_eq!(rt; text.as_slice(), head.as_bytes());
    }
    Ok(())
}
