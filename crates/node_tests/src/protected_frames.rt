//! Protected data of A1 with suite 2, and of A2, octet by octet: the header, the CCMP header, and the
//! sealed payload (IEEE Std 802.11-2020, 12.5.3). They were computed apart from this project.

/// Of S1 with TID 5.
pub const UP_5: &[u8] = b"\x88\x41\0\0\x02\0\0\0\0\x01\x02\0\0\0\0\x11\x02\0\0\0\0\x01\0\0\x05\0\
        \x01\0\0\x20\0\0\0\0\
        \xac\xc8\xc4\x6a\x9c\x3b\x9c\xb5\x64\xd2";

/// Of S1 without a TID.
pub const UP_0: &[u8] = b"\x08\x41\0\0\x02\0\0\0\0\x01\x02\0\0\0\0\x11\x02\0\0\0\0\x01\0\0\
        \x01\0\0\x20\0\0\0\0\
        \x5f\xd3\xee\x29\x77\xa9\x6f\x50\x1c\x74\xb2\xa7\x9d";

/// To S1 with TID 3.
pub const DOWN_3: &[u8] = b"\x88\x42\0\0\x02\0\0\0\0\x11\x02\0\0\0\0\x01\x02\0\0\0\0\x01\0\0\x03\0\
        \x01\0\0\x20\0\0\0\0\
        \xef\x94\xed\xf3\xdf\xd2\xd4\xf2\xe7\x60\xde\x5e";

/// To all, under the first group key.
pub const ALL_1: &[u8] = b"\x08\x42\0\0\xff\xff\xff\xff\xff\xff\x02\0\0\0\0\x01\x02\0\0\0\0\x01\0\0\
        \x01\0\0\x60\0\0\0\0\
        \x43\x75\x31\x6d\x5d\x79\x6b\x4b\x54\xc9\x23";

/// To all, under the second group key.
pub const NEXT_ALL_1: &[u8] =
    b"\x08\x42\0\0\xff\xff\xff\xff\xff\xff\x02\0\0\0\0\x01\x02\0\0\0\0\x01\0\0\
        \x01\0\0\xa0\0\0\0\0\
        \x52\xe4\xb4\x8e\x53\x51\x5c\x48\x6f\xf3\x89\xf7\x75\x99";

/// Of A2 to all, under its first group key.
pub const ALL_OF_A2: &[u8] =
    b"\x08\x42\0\0\xff\xff\xff\xff\xff\xff\x02\0\0\0\0\x02\x02\0\0\0\0\x02\0\0\
        \x01\0\0\x60\0\0\0\0\
        \xb5\xe9\x1e\xae\xcd\x95\xc1\x3b\x9e\x04\x5e\x2c\xb2";
