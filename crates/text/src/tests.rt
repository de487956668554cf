use crate::Text;

// What fits is put behind what stands there, and what does not fit is not.
#[test]
fn puts(rt: HostRuntime) {
    let mut out = [7; 6];
    let mut text = Text::new(&mut out);
    assert_eq!(rt; text.put(b"a "), Some(()));
    assert_eq!(rt; text.put_number(108), Some(()));
    assert_eq!(rt; text.put(b"bc"), None);
    assert_eq!(rt; text.put_number(10), None);
    assert_eq!(rt; text.len, 5);
    assert_eq!(rt; out, *b"a 108\x07");
}
