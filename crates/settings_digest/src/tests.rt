//! Digests of which `sha256sum` gives the same 16 digits for settings in their normal form.
use crate::settings_digest;

#[test]
fn the_digest_is_that_of_the_normal_form(rt: HostRuntime) {
    let plain = settings_digest(b"mode rings\nnode 1\nnode 2\nhb 2 5\nbegin\n");
    assert_eq!(rt; plain, 0xe9b3_6bae_c7d4_856d);
    let noted = settings_digest(
        b"# Two nodes.\n\nmode rings\nnode  1\n node 2\n \nhb 2 5 \n#\nbegin\nclient 1 a -\n",
    );
    assert_eq!(rt; noted, plain);
    let turned = settings_digest(b"mode rings\nnode 2\nnode 1\nhb 2 5\nbegin\n");
    assert_eq!(rt; turned, 0x10f8_a22b_a52e_6101);
    assert_eq!(rt; settings_digest(b"begin\n"), 0xe3b0_c442_98fc_1c14);
}
