//! Playlists and maps, and what is read of them.
mod playing;

use super::*;
use std::alloc::{AllocError, Global};
use std::test::Fail;

// What is read of a playlist: its target, `ended`, and each segment as DURATION=URI. Or its fault.
fn told(alloc: Global, text: &[u8]) -> Result<String, AllocError> {
    let list = match read_playlist(alloc, text) {
        Ok(list) => list,
        Err(fault) => return format!(in alloc; "{fault:?}"),
    };
    let mut line = format!(in alloc; "{}", list.target)?;
    if list.ended {
        line.push_str(" ended")?;
    }
    for segment in list.segments.rows() {
        line.push_str(" ")?;
        push_bytes(alloc, &mut line, segment.duration.bytes())?;
        line.push_str("=")?;
        push_bytes(alloc, &mut line, segment.uri.bytes())?;
    }
    Ok(line)
}

fn push_bytes(alloc: Global, line: &mut String, bytes: &[u8]) -> Result<(), AllocError> {
    let text = String::from_utf8_lossy(alloc, bytes)?;
    line.push_str(&text)?;
    Ok(())
}

// Lists as encoders and packagers write them, and what is read of them.
const WRITTEN: [(&str, &str); 14] = [
    // A segmenter of transport streams.
    (
        "#EXTM3U\n#EXT-X-VERSION:3\n#EXT-X-TARGETDURATION:10\n#EXT-X-MEDIA-SEQUENCE:0\n\
         #EXTINF:10.000000,\nout0.ts\n#EXTINF:9.360000,\nout1.ts\n#EXT-X-ENDLIST\n",
        "10 ended 10.000000=out0.ts 9.360000=out1.ts",
    ),
    // The example of RFC 8216, section 8.1.
    (
        "#EXTM3U\n#EXT-X-TARGETDURATION:10\n#EXT-X-VERSION:3\n#EXTINF:9.009,\n\
         http://media.example.com/first.ts\n#EXTINF:9.009,\nhttp://media.example.com/second.ts\n\
         #EXTINF:3.003,\nhttp://media.example.com/third.ts\n#EXT-X-ENDLIST\n",
        "10 ended 9.009=http://media.example.com/first.ts 9.009=http://media.example.com/second.ts \
         3.003=http://media.example.com/third.ts",
    ),
    // That of section 8.2, which is live.
    (
        "#EXTM3U\n#EXT-X-VERSION:3\n#EXT-X-TARGETDURATION:8\n#EXT-X-MEDIA-SEQUENCE:2680\n\n#EXTINF:7.975,\n\
         https://priv.example.com/fileSequence2680.ts\n#EXTINF:7.941,\n\
         https://priv.example.com/fileSequence2681.ts\n",
        "8 7.975=https://priv.example.com/fileSequence2680.ts 7.941=https://priv.example.com/fileSequence2681.ts",
    ),
    // That of section 8.3, with keys.
    (
        "#EXTM3U\n#EXT-X-VERSION:3\n#EXT-X-MEDIA-SEQUENCE:7794\n#EXT-X-TARGETDURATION:15\n\n\
         #EXT-X-KEY:METHOD=AES-128,URI=\"https://priv.example.com/key.php?r=52\"\n\n#EXTINF:2.833,\n\
         http://media.example.com/fileSequence52-A.ts\n#EXTINF:15.0,\n\
         http://media.example.com/fileSequence52-B.ts\n\n\
         #EXT-X-KEY:METHOD=AES-128,URI=\"https://priv.example.com/key.php?r=53\"\n\n#EXTINF:15.0,\n\
         http://media.example.com/fileSequence53-A.ts\n",
        "15 2.833=http://media.example.com/fileSequence52-A.ts 15.0=http://media.example.com/fileSequence52-B.ts \
         15.0=http://media.example.com/fileSequence53-A.ts",
    ),
    // That of section 8.4, a master playlist.
    (
        "#EXTM3U\n#EXT-X-STREAM-INF:BANDWIDTH=1280000,AVERAGE-BANDWIDTH=1000000\nhttp://example.com/low.m3u8\n",
        "NoInf { line: 3 }",
    ),
    // A master playlist of renditions alone.
    (
        "#EXTM3U\n#EXT-X-MEDIA:TYPE=AUDIO,GROUP-ID=\"aac\",NAME=\"English\",URI=\"eng.m3u8\"\n",
        "NoTarget",
    ),
    // A packager of fragmented MP4.
    (
        "#EXTM3U\n#EXT-X-VERSION:6\n## Generated with a packager\n\n#EXT-X-TARGETDURATION:7\n\
         #EXT-X-PLAYLIST-TYPE:VOD\n#EXT-X-INDEPENDENT-SEGMENTS\n#EXT-X-MAP:URI=\"init.mp4\"\n#EXTINF:6.006,\t\n\
         1.m4s\n#EXTINF:6.006,\n2.m4s\n#EXT-X-ENDLIST\n",
        "7 ended 6.006=1.m4s 6.006=2.m4s",
    ),
    // Segments that are byte ranges of one file.
    (
        "#EXTM3U\n#EXT-X-VERSION:7\n#EXT-X-TARGETDURATION:6\n#EXT-X-MAP:URI=\"main.mp4\",BYTERANGE=\"719@0\"\n\
         #EXTINF:6.00000,\n#EXT-X-BYTERANGE:1508000@719\nmain.mp4\n",
        "ByteRange { line: 6 }",
    ),
    // A live list with dates, a break and titles.
    (
        "#EXTM3U\r\n#EXT-X-VERSION:3\r\n#EXT-X-MEDIA-SEQUENCE:88\r\n#EXT-X-TARGETDURATION:2\r\n\
         #EXT-X-PROGRAM-DATE-TIME:2024-05-01T10:00:00.000Z\r\n#EXTINF:2.002,live\r\n88.ts\r\n\
         #EXT-X-DISCONTINUITY\r\n#EXTINF:2,an ad, \"quoted\"\r\nad/1.ts?x=1#t\r\n",
        "2 2.002=88.ts 2=ad/1.ts?x=1#t",
    ),
    // A list of low latency: parts and hints are tags, and skipped.
    (
        "#EXTM3U\n#EXT-X-TARGETDURATION:4\n#EXT-X-VERSION:9\n#EXT-X-PART-INF:PART-TARGET=1.004000\n\
         #EXT-X-PART:DURATION=1.004,URI=\"271.0.mp4\"\n#EXTINF:4.00008,\n271.mp4\n\
         #EXT-X-PRELOAD-HINT:TYPE=PART,URI=\"272.0.mp4\"\n",
        "4 4.00008=271.mp4",
    ),
    // Marks of advertisements between a tag and its URI.
    (
        "#EXTM3U\n#EXT-X-TARGETDURATION:6\n#EXTINF:6.0,\n#EXT-OATCLS-SCTE35:/DAlAAAAAAAAAP/wFAUAAAABf+/+\n\
         #EXT-X-CUE-OUT:30\n\na.ts\n#EXT-X-CUE-IN\n#EXTINF:6.0,\nb.ts\n#EXT-X-ENDLIST",
        "6 ended 6.0=a.ts 6.0=b.ts",
    ),
    // An audio list: what follows the duration is a title.
    (
        "#EXTM3U\n#EXT-X-TARGETDURATION:242\n#EXTINF:123,Artist - Title\nSample.mp3\n#EXTINF:242,#3, Nr. 2\n\
         C:\\Music\\Greatest.mp3\n",
        "242 123=Sample.mp3 242=C:\\Music\\Greatest.mp3",
    ),
    // Durations of -1, as some lists of stations have them.
    (
        "#EXTM3U\n#EXT-X-TARGETDURATION:6\n#EXTINF:-1,Radio\nhttp://r.example/\n",
        "BadInf { line: 3 }",
    ),
    // Attributes behind the duration, as lists of television have them.
    (
        "#EXTM3U\n#EXT-X-TARGETDURATION:6\n#EXTINF:6 tvg-id=\"a\",A\nhttp://t.example/\n",
        "BadInf { line: 3 }",
    ),
];

#[test]
fn lists_as_encoders_write_them_are_read(rt: HostRuntime) -> Result<(), Fail> {
    for (text, wanted) in WRITTEN {
        let found = told(rt.alloc(), text.as_bytes())?;
        assert_eq!(rt; found.as_str(), wanted, "{text}");
    }
    Ok(())
}

// Short lists, and what is read of them. A `|` stands for each line feed.
const SHORT: [(&str, &str); 62] = [
    // The worked row, and its variants.
    (
        "#EXTM3U|#EXT-X-TARGETDURATION:6|#EXT-X-MAP:URI=\"i.mp4\"|#EXTINF:5.96,|s1.ts|#EXT-X-ENDLIST",
        "6 ended 5.96=s1.ts",
    ),
    (
        "#EXTM3U|#EXT-X-ENDLIST|#EXT-X-TARGETDURATION:6|#EXT-X-MAP:URI=\"i.mp4\"|#EXTINF:5.96,|s1.ts",
        "6 ended 5.96=s1.ts",
    ),
    (
        "#EXTM3U|#EXT-X-MAP:URI=\"i.mp4\"|#EXTINF:5.96,|s1.ts|#EXT-X-ENDLIST",
        "NoTarget",
    ),
    (
        "#EXTM3U|#EXT-X-TARGETDURATION:6|#EXT-X-MAP:URI=\"i.mp4\"|s1.ts|#EXT-X-ENDLIST",
        "NoInf { line: 4 }",
    ),
    (
        "#EXTM3U|#EXT-X-TARGETDURATION:6|#EXT-X-MAP:URI=\"i.mp4\"|#EXTINF:5.96,|#EXT-X-BYTERANGE:5|s1.ts|\
         #EXT-X-ENDLIST",
        "ByteRange { line: 5 }",
    ),
    // The first line.
    ("", "NoHeader"),
    ("|#EXTM3U", "NoHeader"),
    ("#EXTM3U8", "NoHeader"),
    ("#EXTM3U ", "NoHeader"),
    ("#extm3u", "NoHeader"),
    (" #EXTM3U", "NoHeader"),
    ("\u{feff}#EXTM3U", "NoHeader"),
    ("#EXTINF:1,|a", "NoHeader"),
    ("#EXTM3U\r", "NoHeader"),
    ("#EXTM3U\r\r|#EXT-X-TARGETDURATION:6", "NoHeader"),
    ("#EXTM3U", "NoTarget"),
    ("#EXTM3U|", "NoTarget"),
    ("#EXTM3U|#EXTM3U|#EXT-X-TARGETDURATION:6", "6"),
    // The target duration.
    ("#EXTM3U|#EXT-X-TARGETDURATION:0", "0"),
    ("#EXTM3U|#EXT-X-TARGETDURATION:0006", "6"),
    ("#EXTM3U|#EXT-X-TARGETDURATION:4294967295", "4294967295"),
    (
        "#EXTM3U|#EXT-X-TARGETDURATION:4294967296",
        "BadTarget { line: 2 }",
    ),
    (
        "#EXTM3U|#EXT-X-TARGETDURATION:99999999999999999999",
        "BadTarget { line: 2 }",
    ),
    ("#EXTM3U|#EXT-X-TARGETDURATION:", "BadTarget { line: 2 }"),
    ("#EXTM3U|#EXT-X-TARGETDURATION:6.0", "BadTarget { line: 2 }"),
    ("#EXTM3U|#EXT-X-TARGETDURATION: 6", "BadTarget { line: 2 }"),
    ("#EXTM3U|#EXT-X-TARGETDURATION:6 ", "BadTarget { line: 2 }"),
    ("#EXTM3U|#EXT-X-TARGETDURATION:-6", "BadTarget { line: 2 }"),
    (
        "#EXTM3U|#EXT-X-TARGETDURATION:6||#EXT-X-TARGETDURATION:6",
        "BadTarget { line: 4 }",
    ),
    ("#EXTM3U|#EXT-X-TARGETDURATION", "NoTarget"),
    ("#EXTM3U|#EXT-X-TARGETDURATION=6", "NoTarget"),
    ("#EXTM3U| #EXT-X-TARGETDURATION:6", "NoInf { line: 2 }"),
    ("#EXTM3U|#EXTINF:1,|a|#EXT-X-TARGETDURATION:6", "6 1=a"),
    // Durations.
    (
        "#EXTM3U|#EXT-X-TARGETDURATION:6|#EXTINF:007.50|a",
        "6 007.50=a",
    ),
    ("#EXTM3U|#EXT-X-TARGETDURATION:6|#EXTINF:99|a", "6 99=a"),
    ("#EXTM3U|#EXT-X-TARGETDURATION:6|#EXTINF:1,,|a", "6 1=a"),
    (
        "#EXTM3U|#EXT-X-TARGETDURATION:6|#EXTINF:1.5,2.5.5|a",
        "6 1.5=a",
    ),
    (
        "#EXTM3U|#EXT-X-TARGETDURATION:6|#EXTINF:|a",
        "BadInf { line: 3 }",
    ),
    (
        "#EXTM3U|#EXT-X-TARGETDURATION:6|#EXTINF:,|a",
        "BadInf { line: 3 }",
    ),
    (
        "#EXTM3U|#EXT-X-TARGETDURATION:6|#EXTINF:.5,|a",
        "BadInf { line: 3 }",
    ),
    (
        "#EXTM3U|#EXT-X-TARGETDURATION:6|#EXTINF:5.,|a",
        "BadInf { line: 3 }",
    ),
    (
        "#EXTM3U|#EXT-X-TARGETDURATION:6|#EXTINF:5.5.5,|a",
        "BadInf { line: 3 }",
    ),
    (
        "#EXTM3U|#EXT-X-TARGETDURATION:6|#EXTINF:5 ,|a",
        "BadInf { line: 3 }",
    ),
    (
        "#EXTM3U|#EXT-X-TARGETDURATION:6|#EXTINF: 5,|a",
        "BadInf { line: 3 }",
    ),
    (
        "#EXTM3U|#EXT-X-TARGETDURATION:6|#EXTINF:1e3,|a",
        "BadInf { line: 3 }",
    ),
    // A tag and its URI.
    (
        "#EXTM3U|#EXT-X-TARGETDURATION:6|#EXTINF:5,|#EXTINF:6,|a",
        "BadInf { line: 3 }",
    ),
    (
        "#EXTM3U|#EXT-X-TARGETDURATION:6|#EXTINF:5,|#EXTINF:x,|a",
        "BadInf { line: 3 }",
    ),
    (
        "#EXTM3U|#EXT-X-TARGETDURATION:6|#EXTINF:5,",
        "BadInf { line: 3 }",
    ),
    (
        "#EXTM3U|#EXT-X-TARGETDURATION:6|#EXTINF:5,|a|b",
        "NoInf { line: 5 }",
    ),
    (
        "#EXTM3U|#EXT-X-TARGETDURATION:6|#EXTINF:5,|a|#EXTINF:6,|b",
        "6 5=a 6=b",
    ),
    (
        "#EXTM3U|#EXT-X-TARGETDURATION:6|#EXTINF:5,|#EXT-X-ENDLIST|a",
        "6 ended 5=a",
    ),
    (
        "#EXTM3U|#EXT-X-TARGETDURATION:6|#EXTINF:5,|a|#EXT-X-BYTERANGE:5",
        "ByteRange { line: 5 }",
    ),
    (
        "#EXTM3U|#EXT-X-TARGETDURATION:6|#EXT-X-BYTERANGE|#EXTINF:5,|a",
        "6 5=a",
    ),
    // Of two faults that of the first line, which for a tag without its URI is the tag's.
    (
        "#EXTM3U|#EXTINF:5,|#EXT-X-TARGETDURATION:x",
        "BadInf { line: 2 }",
    ),
    (
        "#EXTM3U|#EXTINF:5,|#EXT-X-TARGETDURATION:x|a",
        "BadTarget { line: 3 }",
    ),
    (
        "#EXTM3U|#EXTINF:5,|#EXT-X-BYTERANGE:1",
        "BadInf { line: 2 }",
    ),
    ("#EXTM3U|a", "NoInf { line: 2 }"),
    // The end tag.
    (
        "#EXTM3U|#EXT-X-TARGETDURATION:6|#EXT-X-ENDLIST|#EXT-X-ENDLIST",
        "6 ended",
    ),
    ("#EXTM3U|#EXT-X-TARGETDURATION:6|#EXT-X-ENDLIST ", "6"),
    ("#EXTM3U|#EXT-X-TARGETDURATION:6|#EXT-X-ENDLIST:x", "6"),
    (
        "#EXTM3U|#EXT-X-ENDLIST|#EXT-X-TARGETDURATION:6|#EXTINF:5,|a|b",
        "NoInf { line: 6 }",
    ),
    // A URI may begin with a space, and may be of any characters.
    (
        "#EXTM3U|#EXT-X-TARGETDURATION:6|#EXTINF:5,| \u{e9}\u{1f600} #|#EXTINF:6,|x\r\r",
        "6 5= \u{e9}\u{1f600} # 6=x\r\r",
    ),
];

// The list with each `|` as the line end.
fn with_ends(alloc: Global, text: &str, end: &str) -> Result<String, AllocError> {
    let mut whole = String::new(alloc);
    for (number, line) in text.split('|').enumerate() {
        if number > 0 {
            whole.push_str(end)?;
        }
        whole.push_str(line)?;
    }
    Ok(whole)
}

#[test]
fn short_lists_are_read_whatever_ends_their_lines(rt: HostRuntime) -> Result<(), Fail> {
    let alloc = rt.alloc();
    for (text, wanted) in SHORT {
        for end in ["\n", "\r\n"] {
            let list = with_ends(alloc, text, end)?;
            let found = told(alloc, list.as_bytes())?;
            assert_eq!(rt; found.as_str(), wanted, "{text}");
        }
    }
    Ok(())
}

#[test]
fn a_last_line_may_end_without_a_line_feed(rt: HostRuntime) -> Result<(), Fail> {
    let alloc = rt.alloc();
    for (text, wanted) in SHORT {
        if text.ends_with('\r') || text.is_empty() {
            continue;
        }
        for end in ["\n", "\r\n"] {
            let mut list = with_ends(alloc, text, "\n")?;
            list.push_str(end)?;
            let found = told(alloc, list.as_bytes())?;
            assert_eq!(rt; found.as_str(), wanted, "{text}");
        }
    }
    Ok(())
}

#[test]
fn bytes_that_are_not_utf8_are_refused_where_they_begin(rt: HostRuntime) {
    let rows: [(&[u8], usize); 6] = [
        (b"\xff", 0),
        (b"#EXTM3U\n\xff", 8),
        (b"#EXTM3U\n\xc3\xa9\xc3", 10),
        (b"x\n\xf0\x9f\x98", 2),
        (b"#EXTM3U\n\xed\xa0\x80\n", 8),
        (b"#EXTM3U\n#EXTINF:x\n\xc0\xaf", 18),
    ];
    for (text, at) in rows {
        assert_eq!(rt;
            read_playlist(rt.alloc(), text).err(),
            Some(ListFault::NotUtf8 { at })
        );
    }
}

// A list with so many segments.
fn list_of(alloc: Global, segments: usize) -> Result<String, AllocError> {
    let mut text = String::new(alloc);
    text.push_str("#EXTM3U\n#EXT-X-TARGETDURATION:6\n")?;
    for _ in 0..segments {
        text.push_str("#EXTINF:5.96,\nsegment.m4s\n")?;
    }
    Ok(text)
}

#[test]
fn a_list_has_at_most_10000_segments(rt: HostRuntime) -> Result<(), Fail> {
    let alloc = rt.alloc();
    let list = read_playlist(alloc, list_of(alloc, MAX_SEGMENTS)?.as_bytes())?;
    assert_eq!(rt; list.segments.rows().len(), 10_000);
    for segment in list.segments.rows() {
        assert!(rt; segment.uri.bytes() == b"segment.m4s".as_slice());
    }
    let fault = read_playlist(alloc, list_of(alloc, MAX_SEGMENTS + 1)?.as_bytes()).err();
    assert_eq!(rt; fault, Some(ListFault::TooMany { line: 20_004 }));
    // Without its own tag it is that fault.
    let mut list = list_of(alloc, MAX_SEGMENTS)?;
    list.push_str("x")?;
    let fault = read_playlist(alloc, list.as_bytes()).err();
    assert_eq!(rt; fault, Some(ListFault::NoInf { line: 20_003 }));
    Ok(())
}

// A list of one segment whose URI fills it to so many bytes.
fn list_of_bytes(alloc: Global, front: &[u8], length: usize) -> Result<Vec<u8>, AllocError> {
    let mut text = front.to_vec(alloc)?;
    text.extend_from_slice(b"\n#EXT-X-TARGETDURATION:6\n#EXTINF:5,\n")?;
    for _ in text.len()..length {
        text.push(b'u')?;
    }
    Ok(text)
}

#[test]
fn a_list_has_at_most_4194304_bytes(rt: HostRuntime) -> Result<(), Fail> {
    let alloc = rt.alloc();
    let list = read_playlist(alloc, &list_of_bytes(alloc, b"#EXTM3U", MAX_PLAYLIST)?)?;
    assert_eq!(rt; list.segments.rows().len(), 1);
    // The length is looked at first.
    for front in [b"#EXTM3U".as_slice(), b"\xff".as_slice()] {
        let text = list_of_bytes(alloc, front, MAX_PLAYLIST + 1)?;
        assert_eq!(rt; read_playlist(alloc, &text).err(), Some(ListFault::TooLong));
    }
    Ok(())
}

// The address of an authority in a map, or the map's fault.
fn address_in(alloc: Global, text: &str, authority: &str) -> Result<String, AllocError> {
    let map = match read_map(alloc, text.as_bytes()) {
        Ok(map) => map,
        Err(fault) => return format!(in alloc; "{fault:?}"),
    };
    let mut line = String::new(alloc);
    match map.address_of(authority.as_bytes()) {
        Some(address) => push_bytes(alloc, &mut line, address)?,
        None => line.push_str("none")?,
    }
    Ok(line)
}

#[test]
fn a_map_gives_the_first_address_of_an_authority(rt: HostRuntime) -> Result<(), Fail> {
    for (text, wanted) in [
        ("", "none"),
        ("a.example 127.0.0.1:80", "127.0.0.1:80"),
        ("a.example 127.0.0.1:80\n", "127.0.0.1:80"),
        ("a.example 127.0.0.1:80\r\n", "127.0.0.1:80"),
        ("b 1\na.example 2\na.example 3\n", "2"),
        ("a.example:80 1\n", "none"),
        ("A.example 1\n", "none"),
        ("b 1\n", "none"),
        ("a.example ~!\"#\n", "~!\"#"),
        ("\n", "Line { line: 1 }"),
        ("a.example\n", "Line { line: 1 }"),
        ("a.example \n", "Line { line: 1 }"),
        (" 1\n", "Line { line: 1 }"),
        ("a.example  1\n", "Line { line: 1 }"),
        ("a.example 1 2\n", "Line { line: 1 }"),
        ("a.example 1 \n", "Line { line: 1 }"),
        ("a.example\t1\n", "Line { line: 1 }"),
        ("a.example 1\r", "Line { line: 1 }"),
        ("a.example 1\r\r\n", "Line { line: 1 }"),
        ("a.example \u{e9}\n", "Line { line: 1 }"),
        ("a.example \u{7f}\n", "Line { line: 1 }"),
        ("a.example 1\nb  1\nc\n", "Line { line: 2 }"),
        ("a.example 1\n\n", "Line { line: 2 }"),
        ("a.example 1\r\nb 1\r\nc d e", "Line { line: 3 }"),
    ] {
        let found = address_in(rt.alloc(), text, "a.example")?;
        assert_eq!(rt; found.as_str(), wanted, "{text}");
    }
    Ok(())
}

#[test]
fn faults_say_what_to_mend(rt: HostRuntime) -> Result<(), Fail> {
    let alloc = rt.alloc();
    for (fault, expected) in [
        (
            ListFault::TooLong,
            "the playlist has more than 4194304 bytes: cut it",
        ),
        (
            ListFault::NotUtf8 { at: 3 },
            "the bytes at 3 are not UTF-8: encode them",
        ),
        (
            ListFault::NoHeader,
            "line 1 is not #EXTM3U: this may be no playlist",
        ),
        (
            ListFault::BadTarget { line: 2 },
            "line 2: give one whole target duration below 2^32",
        ),
        (
            ListFault::BadInf { line: 3 },
            "line 3: give #EXTINF: a duration in digits, and a URI before the next one",
        ),
        (
            ListFault::NoInf { line: 4 },
            "line 4: put #EXTINF: before the URI",
        ),
        (
            ListFault::ByteRange { line: 5 },
            "line 5: segments that are byte ranges are not played",
        ),
        (
            ListFault::TooMany { line: 6 },
            "line 6: the playlist has more than 10000 segments: cut it",
        ),
        (
            ListFault::NoTarget,
            "add #EXT-X-TARGETDURATION: and a number",
        ),
        (ListFault::NoMemory, "out of memory: try again with more"),
    ] {
        assert_eq!(rt; format!(in alloc; "{fault}")?.as_str(), expected);
    }
    let line = MapFault::Line { line: 7 };
    assert_eq!(rt;
        format!(in alloc; "{line}")?.as_str(),
        "line 7: write an authority, one space and an address, as `h:80 127.0.0.1:80`"
    );
    Ok(())
}
