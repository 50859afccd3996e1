//! Inputs are parted.

use input_parts::parts_of;
use std::test::Fail;

#[test]
fn parts_at_the_first_line_of_dashes(rt: HostRuntime) -> Result<(), Fail> {
    let rows: [(&[u8], &[u8], Option<&[u8]>); 9] = [
        (b"", b"", None),
        (b"a\nb", b"a\nb", None),
        (b"----", b"", Some(b"")),
        (b"a\n----", b"a\n", Some(b"")),
        (b"a\n----\n", b"a\n", Some(b"")),
        (b"a\r\n----\r\nb\r\n", b"a\r\n", Some(b"b\r\n")),
        (b"a\n----\n----\nb", b"a\n", Some(b"----\nb")),
        (
            b"a\n ----\n-----\n----\r\r\n",
            b"a\n ----\n-----\n----\r\r\n",
            None,
        ),
        (b"a----\n----\nc", b"a----\n", Some(b"c")),
    ];
    for (input, service, script) in rows {
        let parts = parts_of(input);
        assert_eq!(rt; parts.0, service);
        assert!(rt; parts.1 == script);
    }
    Ok(())
}
