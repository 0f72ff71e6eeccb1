//! Containers against URIs.
use crate::{Container, NoMemory, hash_container, segment_of};
use std::alloc::Global;
use std::test::Fail;
use usp_uri::read_uri;

mod judging;
mod samples;

// Whether a container text meets a URI.
fn meets(alloc: Global, container: &str, uri: &str) -> Result<bool, NoMemory> {
    let container = Container::of(alloc, container.as_bytes())?;
    match read_uri(alloc, uri.as_bytes()) {
        Ok(uri) => container.meets(alloc, &uri),
        Err(_) => Err(NoMemory),
    }
}

const FOLDER: &str = "regex:[^:]*\\://[^/]*/folder/quality_[^/]*/segment.{3}\\.mp4(\\?.*)?";

#[test]
fn a_container_meets_the_contents_that_it_names(rt: HostRuntime) -> Result<(), Fail> {
    let alloc = rt.alloc();
    let segment = "hash:sha-256;xT60M7lHtGBVCdlichUwoZuDeaxplJhq9F7WRq4UG3k";
    let rows: [(&str, &str, bool); 14] = [
        (segment, "http://h/v", true),
        (segment, "http://h/w", false),
        (
            "hash:sha-256;xT60M7lHtGBVCdlichUwoZuDeaxplJhq9F7WRq4UG3",
            "http://h/v",
            false,
        ),
        (
            "hash:sha-256;xT60M7lHtGBVCdlichUwoZuDeaxplJhq9F7WRq4UG3kk",
            "http://h/v",
            false,
        ),
        ("hash:", "http://h/v", false),
        ("regex:^http://h/", "http://h/v", true),
        ("regex:^http://h/", "https://h/v", false),
        ("regex:a**", "http://h/a", false),
        ("regex:", "http://h/a", false),
        ("Regex:h", "http://h/a", false),
        ("", "http://h/a", false),
        (FOLDER, "http://x/folder/quality_hd/segment001.mp4", true),
        (
            FOLDER,
            "http://x/folder/quality_hd/segment001.mp4.bak",
            true,
        ),
        (FOLDER, "http://x/folder/quality_hd/segment0001.mp4", false),
    ];
    for (container, uri, expected) in rows {
        assert_eq!(rt; meets(alloc, container, uri)?, expected);
    }
    Ok(())
}

// RFC 6920 section 8.1 has the digest of this text.
#[test]
fn the_segment_of_hello_world(rt: HostRuntime) -> Result<(), Fail> {
    let segment = segment_of(b"Hello World!");
    let expected = b"sha-256;f4OxZX_x_FO5LcGBSKHWXfwtSx-j1ncoSt3SABJtkGk";
    assert_eq!(rt; segment.as_slice(), expected.as_slice());
    Ok(())
}

#[test]
fn the_container_of_one_content(rt: HostRuntime) -> Result<(), Fail> {
    let alloc = rt.alloc();
    let Ok(uri) = read_uri(alloc, b"http://h/./v") else {
        return Err(Fail::new("a URI"));
    };
    let container = hash_container(alloc, &uri)?;
    assert_eq!(rt;
        container.text(),
        "hash:sha-256;xT60M7lHtGBVCdlichUwoZuDeaxplJhq9F7WRq4UG3k"
    );
    assert!(rt;
        NoMemory
            .to_string(alloc)?
            .as_str()
            .contains("give the program more")
    );
    Ok(())
}
