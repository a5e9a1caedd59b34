//! The vectors of RFC 2202 for keys that are shorter than a block, as long as the standard's, and longer than a block. Digests of tables by
//! Python are compared with those that the program prints (`checks/texts/parts-digests.txt`).

use hex::encode;
use mst_roles::hmac_md5;
use std::test::Fail;

/// Keys, texts and the HMAC-MD5 of these (RFC 2202, 2).
const VECTORS: [(&[u8], &[u8], &str); 3] = [
    (
        b"Jefe",
        b"what do ya want for nothing?",
        "750c783e6ab0b503eaa86e310a5db738",
    ),
    (&[0xaa; 16], &[0xdd; 50], "56be34521d144c88dbb8c733f0e8b3f6"),
    (
        &[0xaa; 80],
        b"Test Using Larger Than Block-Size Key - Hash Key First",
        "6b1ab7fe4bd7bf8f0b62e6ce61b9d0cd",
    ),
];

#[test]
fn digests_are_those_of_the_rfc(rt: HostRuntime) -> Result<(), Fail> {
    for (key, text, digest) in &VECTORS {
        assert_eq!(rt; encode(rt.alloc(), hmac_md5(key, text))?.as_str(), *digest);
    }
    Ok(())
}
