//! Runs with what they print.

/// What a run is given, and what it answers and writes.
pub struct Case {
    pub name: &'static str,
    pub words: &'static [&'static str],
    pub input: &'static [u8],
    pub status: u8,
    pub written: &'static [u8],
}

const USAGE: &[u8] = b"usage: express replay, serve, client, cloak, carry, batch or mill NUMBER\n";

const HELPER: &[u8] =
    b"role = \"helper\"\nlisten = \"127.0.0.1:7000\"\nwidth = 16\nboxes = 4\nlanes = 1\nwindow = 1\nconnections = 1\n";

pub const SMALLEST: &[u8] =
    b"express 1 16 4 1 1 0000000000000000000000000000000000000000000000000000000000000000\n";

// Outputs of replays are those of an independent program written from the protocol's description.
pub const CASES: [Case; 34] = [
    Case {
        name: "smallest",
        words: &["replay"],
        input: SMALLEST,
        status: 0,
        written: b"end\n",
    },
    Case {
        name: "untouched box",
        words: &["replay"],
        input: b"express 1 16 4 1 1 0000000000000000000000000000000000000000000000000000000000000000\n\
ask 0 register 00112233445566778899aabbccddeeff\n\
ask 0 read 0\n\
finish 0\n",
        status: 0,
        written: b"outcome 0 0 registered 0\n\
outcome 0 1 message 00000000000000000000000000000000\n\
journal 0 1 register 0\n\
journal 0 2 read 0\n\
share 0 00112233445566778899aabbccddeeff 00000000000000000000000000000000 00000000000000000000000000000000\n\
end\n",
    },
    Case {
        name: "address zero",
        words: &["replay"],
        input: b"express 1 16 4 1 1 0000000000000000000000000000000000000000000000000000000000000000\n\
ask 0 register 00000000000000000000000000000000\n\
ask 0 write 00000000000000000000000000000000 ffffffffffffffffffffffffffffffff\n\
ask 0 read 0\n\
ask 0 read 0\n\
finish 0\n",
        status: 0,
        written: b"outcome 0 0 registered 0\n\
outcome 0 1 accepted\n\
outcome 0 2 message ffffffffffffffffffffffffffffffff\n\
outcome 0 3 message 00000000000000000000000000000000\n\
journal 0 1 register 0\n\
journal 0 2 begin 1\n\
journal 0 2 audit f46a53429bc0295575ac727ef53d73f0 edabb40005838543319926ede9c15228 088d49ed735f09d5347a391a864161c3 fcb441ef971c0120f83a46db83bf15e2 9fc81406ab8eb640437e879af457651a f601bca7845764c2f2f0e3ef92888148\n\
journal 0 2 settle accepted 9fc81406ab8eb640437e879af457651a f601bca7845764c2f2f0e3ef92888148\n\
journal 0 3 read 0\n\
journal 0 4 read 0\n\
share 0 00000000000000000000000000000000 00000000000000000000000000000000 00000000000000000000000000000000\n\
end\n",
    },
    Case {
        name: "neighbours",
        words: &["replay"],
        input: b"express 1 16 4 1 1 0000000000000000000000000000000000000000000000000000000000000000\n\
ask 0 register ffffffffffffffffffffffffffffffff\n\
ask 0 register fffffffffffffffffffffffffffffffe\n\
ask 0 write ffffffffffffffffffffffffffffffff ffffffffffffffffffffffffffffffff\n\
ask 0 write fffffffffffffffffffffffffffffffe 00112233445566778899aabbccddeeff\n\
ask 0 read 0\n\
ask 0 read 1\n\
finish 0\n",
        status: 0,
        written: b"outcome 0 0 registered 0\n\
outcome 0 1 registered 1\n\
outcome 0 2 accepted\n\
outcome 0 3 accepted\n\
outcome 0 4 message ffffffffffffffffffffffffffffffff\n\
outcome 0 5 message 00112233445566778899aabbccddeeff\n\
journal 0 1 register 0\n\
journal 0 2 register 1\n\
journal 0 3 begin 2\n\
journal 0 3 audit dcd12a5078d0016bd343de90f98eb812 ce85345f6d0adb4a8ab4f3acfbd44d06 2e03c15fec17e87baa88c50fa59ced21 f6e7aeb65da19c55af9c4e53b9f91d2e 03dfc74c46daf6f088b3810afd016f22 4d94d6f1ac9b50b7cfa9fdb42435073f\n\
journal 0 3 settle accepted 03dfc74c46daf6f088b3810afd016f22 4d94d6f1ac9b50b7cfa9fdb42435073f\n\
journal 0 4 begin 2\n\
journal 0 4 audit 4061357d7edd07fa581e9089b5a9d69a 8a54ef5560bc12b5b052970a0633e107 5ed7fac8f3e3168dbf37008ded834d54 9ecd136a926e9e26b5b3c51e61dcbf78 3a87d220f6eb6359d9c5fbdd08f6050f ddf672c3f8b31ac849480ab21d5eb9ef\n\
journal 0 4 settle accepted 3a87d220f6eb6359d9c5fbdd08f6050f ddf672c3f8b31ac849480ab21d5eb9ef\n\
journal 0 5 read 0\n\
journal 0 6 read 1\n\
share 0 ffffffffffffffffffffffffffffffff 00000000000000000000000000000000 00000000000000000000000000000000\n\
share 1 fffffffffffffffffffffffffffffffe 00000000000000000000000000000000 00000000000000000000000000000000\n\
end\n",
    },
    Case {
        name: "xor cancels",
        words: &["replay"],
        input: b"express 1 16 4 1 1 0000000000000000000000000000000000000000000000000000000000000000\n\
ask 0 register 00112233445566778899aabbccddeeff\n\
ask 0 write 00112233445566778899aabbccddeeff ffffffffffffffffffffffffffffffff\n\
ask 0 write 00112233445566778899aabbccddeeff ffffffffffffffffffffffffffffffff\n\
ask 0 read 0\n\
finish 0\n",
        status: 0,
        written: b"outcome 0 0 registered 0\n\
outcome 0 1 accepted\n\
outcome 0 2 accepted\n\
outcome 0 3 message 00000000000000000000000000000000\n\
journal 0 1 register 0\n\
journal 0 2 begin 1\n\
journal 0 2 audit c9c7a24e88f618a3857aa4d86d080817 f34b2bc5df3b4552e67a04edddc0d6d2 815f60c4c9bab5b0aa441a2c68caf100 aa5cf43a83cb2b00f84f9f3a8f2fe247 9fc81406ab8eb640437e879af457651a df458f71a72b765ecab1b9b5cdfbc6df\n\
journal 0 2 settle accepted 9fc81406ab8eb640437e879af457651a df458f71a72b765ecab1b9b5cdfbc6df\n\
journal 0 3 begin 1\n\
journal 0 3 audit e9e9f50caf2d2452c8f21e571afac7f9 52f0abb316ec2ca9e94945d36c13bc94 2ba4aaf32f491ae6a088833c7c0db244 401e2596652dfe4ceaeff9e9d02fc336 03dfc74c46daf6f088b3810afd016f22 2ac090434c38ec37d3a7dfdc08724ab0\n\
journal 0 3 settle accepted 03dfc74c46daf6f088b3810afd016f22 2ac090434c38ec37d3a7dfdc08724ab0\n\
journal 0 4 read 0\n\
share 0 00112233445566778899aabbccddeeff 00000000000000000000000000000000 00000000000000000000000000000000\n\
end\n",
    },
    Case {
        name: "nobodys address",
        words: &["replay"],
        input: b"express 1 16 4 1 1 0000000000000000000000000000000000000000000000000000000000000000\n\
ask 0 register 00112233445566778899aabbccddeeff\n\
ask 0 write ffffffffffffffffffffffffffffffff ffffffffffffffffffffffffffffffff\n\
ask 0 read 0\n\
finish 0\n",
        status: 0,
        written: b"outcome 0 0 registered 0\n\
outcome 0 1 rejected\n\
outcome 0 2 message 00000000000000000000000000000000\n\
journal 0 1 register 0\n\
journal 0 2 begin 1\n\
journal 0 2 audit 407141d73db36c2c7cc80c4ccc51f52d 385c716bdd1ac749f209d06c44374006 c1e73ab3ddb21168bb3a83b136ab787c 4a06bfc40b09a4df2fa6a0dadaa66cb6 9fc81406ab8eb640437e879af457651a 605aa6a264170fa0c7afd63bd2e635a8\n\
journal 0 2 settle rejected 9fc81406ab8eb640437e879af457651a a9b080d40e159fc5ec574ae6741bd853\n\
journal 0 3 read 0\n\
share 0 00112233445566778899aabbccddeeff 00000000000000000000000000000000 00000000000000000000000000000000\n\
end\n",
    },
    Case {
        name: "taken and full",
        words: &["replay"],
        input: b"express 1 16 1 1 1 0000000000000000000000000000000000000000000000000000000000000000\n\
ask 0 register 00112233445566778899aabbccddeeff\n\
ask 0 register 00112233445566778899aabbccddeeff\n\
ask 0 register ffffffffffffffffffffffffffffffff\n\
finish 0\n",
        status: 0,
        written: b"outcome 0 0 registered 0\n\
outcome 0 1 refused taken 0\n\
outcome 0 2 refused full 1\n\
journal 0 1 register 0\n\
journal 0 2 register taken 0\n\
journal 0 3 register full 1\n\
share 0 00112233445566778899aabbccddeeff 00000000000000000000000000000000 00000000000000000000000000000000\n\
end\n",
    },
    Case {
        name: "refused locally",
        words: &["replay"],
        input: b"express 1 16 4 1 1 0000000000000000000000000000000000000000000000000000000000000000\n\
ask 0 register 00112233445566778899aabbccddeeff\n\
ask 0 read 1\n\
finish 0\n",
        status: 0,
        written: b"outcome 0 0 registered 0\n\
outcome 0 1 no box 1\n\
journal 0 1 register 0\n\
share 0 00112233445566778899aabbccddeeff 00000000000000000000000000000000 00000000000000000000000000000000\n\
end\n",
    },
    Case {
        name: "repeats",
        words: &["replay"],
        input: b"express 1 16 4 1 1 0000000000000000000000000000000000000000000000000000000000000000\n\
ask 0 register 00112233445566778899aabbccddeeff\n\
finish 0\n\
ask 0 write 00112233445566778899aabbccddeeff ffffffffffffffffffffffffffffffff\n\
finish 0\n\
ask 0 read 0\n\
send 0\n\
deliver 24\n\
deliver 25\n\
send 0\n\
deliver 26\n\
deliver 26\n\
deliver 27\n\
deliver 27\n\
deliver 28\n\
deliver 29\n\
deliver 30\n\
deliver 30\n\
deliver 30\n",
        status: 0,
        written: b"outcome 0 0 registered 0\n\
outcome 0 1 accepted\n\
outcome 0 2 message ffffffffffffffffffffffffffffffff\n\
journal 0 1 register 0\n\
journal 0 2 begin 1\n\
journal 0 2 audit c9c7a24e88f618a3857aa4d86d080817 f34b2bc5df3b4552e67a04edddc0d6d2 815f60c4c9bab5b0aa441a2c68caf100 aa5cf43a83cb2b00f84f9f3a8f2fe247 9fc81406ab8eb640437e879af457651a df458f71a72b765ecab1b9b5cdfbc6df\n\
journal 0 2 settle accepted 9fc81406ab8eb640437e879af457651a df458f71a72b765ecab1b9b5cdfbc6df\n\
journal 0 3 read 0\n\
share 0 00112233445566778899aabbccddeeff 00000000000000000000000000000000 00000000000000000000000000000000\n\
end\n",
    },
    Case {
        name: "two writers",
        words: &["replay"],
        input: b"express 1 16 4 2 2 0000000000000000000000000000000000000000000000000000000000000000\n\
ask 0 register 00112233445566778899aabbccddeeff\n\
finish 0\n\
ask 1 register ffffffffffffffffffffffffffffffff\n\
finish 1\n\
ask 0 write ffffffffffffffffffffffffffffffff ffffffffffffffffffffffffffffffff\n\
ask 1 write 00112233445566778899aabbccddeeff 00112233445566778899aabbccddeeff\n\
send 0\n\
send 1\n\
deliver 14\n\
deliver 15\n\
deliver 16\n\
deliver 17\n\
send 0\n\
send 1\n\
deliver 19\n\
deliver 18\n\
deliver 21\n\
deliver 20\n\
deliver 21\n\
deliver 23\n\
deliver 22\n\
deliver 23\n\
finish 0\n\
finish 1\n\
ask 0 read 0\n\
finish 0\n\
ask 1 read 0\n\
finish 1\n",
        status: 0,
        written: b"outcome 0 0 registered 0\n\
outcome 1 0 registered 1\n\
outcome 0 1 accepted\n\
outcome 1 1 accepted\n\
outcome 0 2 message 00112233445566778899aabbccddeeff\n\
outcome 1 2 message ffffffffffffffffffffffffffffffff\n\
journal 0 1 register 0\n\
journal 1 1 register 1\n\
journal 1 2 begin 2\n\
journal 0 2 begin 2\n\
journal 0 2 audit 9ac0f27207b7db4bec79c589eaa89adc 5a9fd578c26b35b5a1a563fa79ff3dbe 58dade8987e9fee81b61bb806f10ea65 3040517fd527dd536fd61c7d183b494f 9fc81406ab8eb640437e879af457651a 890dd8b06c1f59a11e36041baa8919c6\n\
journal 0 2 settle accepted 9fc81406ab8eb640437e879af457651a 890dd8b06c1f59a11e36041baa8919c6\n\
journal 1 2 audit 5ff5315c4886c5fbe6c8d3e17bef4f52 44f8065c3aee4306dc65c6499f5c230d 378bcbf7973626eb27eec06f6f610329 f73460ded2f0ba8ffb2f26bcd4a97aba 71d5f100262e4cff0ae5fc0b250d6d17 dfb2a7419de68621c36b9809c39a182c\n\
journal 1 2 settle accepted 71d5f100262e4cff0ae5fc0b250d6d17 dfb2a7419de68621c36b9809c39a182c\n\
journal 0 3 read 0\n\
journal 1 3 read 1\n\
share 0 00112233445566778899aabbccddeeff 00000000000000000000000000000000 00000000000000000000000000000000\n\
share 1 ffffffffffffffffffffffffffffffff 00000000000000000000000000000000 00000000000000000000000000000000\n\
end\n",
    },
    Case {
        name: "box between",
        words: &["replay"],
        input: b"express 1 16 4 2 1 0000000000000000000000000000000000000000000000000000000000000000\n\
ask 0 register 00112233445566778899aabbccddeeff\n\
finish 0\n\
ask 1 write 00112233445566778899aabbccddeeff ffffffffffffffffffffffffffffffff\n\
send 1\n\
deliver 7\n\
deliver 8\n\
send 1\n\
deliver 9\n\
deliver 10\n\
deliver 11\n\
ask 0 register ffffffffffffffffffffffffffffffff\n\
finish 0\n\
finish 1\n\
ask 0 read 0\n\
finish 0\n",
        status: 0,
        written: b"outcome 0 0 registered 0\n\
outcome 0 1 registered 1\n\
outcome 1 0 accepted\n\
outcome 0 2 message ffffffffffffffffffffffffffffffff\n\
journal 0 1 register 0\n\
journal 1 1 begin 1\n\
journal 0 2 register 1\n\
journal 1 1 audit e3db6b93a03446bac30fb826fa81dcf1 60c308567bbed7142bb2d751cec7a358 3d05ce63cc77c4aa281c4e5c82f877e5 a3b52bbe361145dc01ff927100b0998c e64899fa9cde0505bb71774623329453 debc1d28065a5b4e2a419f6799173038\n\
journal 1 1 settle accepted e64899fa9cde0505bb71774623329453 debc1d28065a5b4e2a419f6799173038\n\
journal 0 3 read 0\n\
share 0 00112233445566778899aabbccddeeff 00000000000000000000000000000000 00000000000000000000000000000000\n\
share 1 ffffffffffffffffffffffffffffffff 00000000000000000000000000000000 00000000000000000000000000000000\n\
end\n",
    },
    Case {
        name: "no such frame",
        words: &["replay"],
        input: b"express 1 16 4 1 1 0000000000000000000000000000000000000000000000000000000000000000\n\
ask 0 register 00112233445566778899aabbccddeeff\n\
ask 0 read 0\n\
deliver 99\n\
finish 0\n",
        status: 0,
        written: b"outcome 0 0 registered 0\n\
outcome 0 1 message 00000000000000000000000000000000\n\
journal 0 1 register 0\n\
journal 0 2 read 0\n\
share 0 00112233445566778899aabbccddeeff 00000000000000000000000000000000 00000000000000000000000000000000\n\
end\n",
    },
    Case {
        name: "lost reply",
        words: &["replay"],
        input: b"express 1 16 4 1 1 0000000000000000000000000000000000000000000000000000000000000000\n\
ask 0 register 00112233445566778899aabbccddeeff\n\
send 0\n\
deliver 0\n\
deliver 1\n\
send 0\n\
deliver 2\n\
deliver 3\n\
tick\n\
deliver 5\n\
deliver 6\n\
deliver 7\n",
        status: 0,
        written: b"outcome 0 0 registered 0\n\
journal 0 1 register 0\n\
share 0 00112233445566778899aabbccddeeff 00000000000000000000000000000000 00000000000000000000000000000000\n\
end\n",
    },
    Case {
        name: "stopped early",
        words: &["replay"],
        input: b"express 1 16 4 1 1 0000000000000000000000000000000000000000000000000000000000000000\n\
ask 0 register 00112233445566778899aabbccddeeff\n\
send 0\n\
deliver 0\n\
deliver 1\n\
send 0\n\
deliver 2\n\
deliver 3\n",
        status: 0,
        written: b"journal 0 1 register 0\n\
share 0 00112233445566778899aabbccddeeff 00000000000000000000000000000000 00000000000000000000000000000000\n\
end\n",
    },
    Case {
        name: "empty",
        words: &["replay"],
        input: b"",
        status: 3,
        written: b"bad line 1\n",
    },
    Case {
        name: "leading zero",
        words: &["replay"],
        input: b"express 1 16 4 1 1 0000000000000000000000000000000000000000000000000000000000000000\n\
ask 0 register 00112233445566778899aabbccddeeff\n\
ask 0 read 00\n\
finish 0\n",
        status: 3,
        written: b"bad line 3\n",
    },
    Case {
        name: "odd digits",
        words: &["replay"],
        input: b"express 1 16 4 1 1 0000000000000000000000000000000000000000000000000000000000000000\n\
ask 0 register 00112233445566778899aabbccddeeff\n\
ask 0 read 0\n\
finish 0\n\
ask 0 write 00112233445566778899aabbccddeeff fffffffffffffffffffffffffffffff\n",
        status: 3,
        written: b"bad line 5\n",
    },
    Case {
        name: "window full",
        words: &["replay"],
        input: b"express 1 16 4 2 1 0000000000000000000000000000000000000000000000000000000000000000\n\
ask 0 register 00112233445566778899aabbccddeeff\n\
ask 1 register ffffffffffffffffffffffffffffffff\n\
send 0\n\
send 1\n\
deliver 0\n\
deliver 1\n\
deliver 2\n\
deliver 3\n\
send 0\n\
deliver 4\n\
send 1\n\
deliver 6\n\
show 7\n\
finish 1\n",
        status: 0,
        written: b"outcome 1 0 registered 1\n\
journal 0 1 register 0\n\
journal 1 1 register 1\n\
share 0 00112233445566778899aabbccddeeff 00000000000000000000000000000000 00000000000000000000000000000000\n\
share 1 ffffffffffffffffffffffffffffffff 00000000000000000000000000000000 00000000000000000000000000000000\n\
frame 7 00000019010900010000000100000000000000000d0000000000000001\n\
end\n",
    },
    Case {
        name: "no deposit",
        words: &["replay"],
        input: b"express 1 16 4 2 1 0000000000000000000000000000000000000000000000000000000000000000\n\
inject A 0000004001020001000000010000000000000000ffffffffffffffffffffffffffffffff0000000000000000000000000000000000000000000000000000000000000000\n\
deliver 0\n\
deliver 1\n\
deliver 2\n",
        status: 0,
        written: b"journal 1 1 register nodeposit\n\
end\n",
    },
    Case {
        name: "one byte",
        words: &["replay"],
        input: b"express 1 16 4 2 1 0000000000000000000000000000000000000000000000000000000000000000\n\
inject B 00\n\
deliver 0\n\
show 1\n",
        status: 0,
        written: b"frame 1 00000015010900000000000000000000000000000100000001\n\
end\n",
    },
    Case {
        name: "retire",
        words: &["replay"],
        input: b"express 1 16 4 1 1 0000000000000000000000000000000000000000000000000000000000000000\n\
ask 0 register 00112233445566778899aabbccddeeff\n\
ask 0 write 00112233445566778899aabbccddeeff ffffffffffffffffffffffffffffffff\n\
ask 0 retire 0\n\
ask 0 write 00112233445566778899aabbccddeeff ffffffffffffffffffffffffffffffff\n\
ask 0 read 0\n\
ask 0 register 00112233445566778899aabbccddeeff\n\
finish 0\n",
        status: 0,
        written: b"outcome 0 0 registered 0\n\
outcome 0 1 accepted\n\
outcome 0 2 message ffffffffffffffffffffffffffffffff\n\
outcome 0 3 accepted\n\
outcome 0 4 refused nobox 0\n\
outcome 0 5 refused taken 0\n\
journal 0 1 register 0\n\
journal 0 2 begin 1\n\
journal 0 2 audit c9c7a24e88f618a3857aa4d86d080817 f34b2bc5df3b4552e67a04edddc0d6d2 815f60c4c9bab5b0aa441a2c68caf100 aa5cf43a83cb2b00f84f9f3a8f2fe247 9fc81406ab8eb640437e879af457651a df458f71a72b765ecab1b9b5cdfbc6df\n\
journal 0 2 settle accepted 9fc81406ab8eb640437e879af457651a df458f71a72b765ecab1b9b5cdfbc6df\n\
journal 0 3 retire 0\n\
journal 0 4 begin 1\n\
journal 0 4 audit e12bb066773d5ee581992bbe5e719b49 0d7698520ef078d7bfd2e3f99d886484 a0117b2fd072ec174b7369d236628e70 c66779f070252b5227c0a406206ff3b2 3a87d220f6eb6359d9c5fbdd08f6050f 310dd1d8e3f36886c8de47c35999fa25\n\
journal 0 4 settle accepted 3a87d220f6eb6359d9c5fbdd08f6050f 310dd1d8e3f36886c8de47c35999fa25\n\
journal 0 5 read nobox 0\n\
journal 0 6 register taken 0\n\
share 0 00112233445566778899aabbccddeeff 00000000000000000000000000000000 00000000000000000000000000000000\n\
end\n",
    },
    Case {
        name: "shown frames",
        words: &["replay"],
        input: b"express 1 16 4 1 1 0000000000000000000000000000000000000000000000000000000000000000\n\
ask 0 register 00112233445566778899aabbccddeeff\n\
show 1\n\
finish 0\n\
show 1\n\
show 3\n\
show 6\n",
        status: 0,
        written: b"outcome 0 0 registered 0\n\
journal 0 1 register 0\n\
share 0 00112233445566778899aabbccddeeff 00000000000000000000000000000000 00000000000000000000000000000000\n\
frame 1 000000110106000000000001000000000000000001\n\
frame 3 00000020010a000000000001000000000000000100112233445566778899aabbccddeeff\n\
frame 6 00000015010800000000000100000000000000000100000000\n\
end\n",
    },
    Case {
        name: "clap's own --",
        words: &["--", "replay"],
        input: b"express 1 16 4 1 1 0000000000000000000000000000000000000000000000000000000000000000",
        status: 0,
        written: b"end\n",
    },
    Case {
        name: "no words",
        words: &[],
        input: b"",
        status: 2,
        written: USAGE,
    },
    Case {
        name: "a number",
        words: &["replay", "3"],
        input: b"",
        status: 2,
        written: USAGE,
    },
    Case {
        name: "a flag",
        words: &["--help"],
        input: b"",
        status: 2,
        written: USAGE,
    },
    Case {
        name: "a minus",
        words: &["-"],
        input: b"",
        status: 2,
        written: USAGE,
    },
    Case {
        name: "keep is another call's",
        words: &["keep"],
        input: b"",
        status: 2,
        written: USAGE,
    },
    Case {
        name: "a carrier without settings",
        words: &["carry"],
        input: b"",
        status: 3,
        written: b"bad settings lane\n",
    },
    Case {
        name: "a server without settings",
        words: &["serve"],
        input: b"",
        status: 3,
        written: b"bad settings role\n",
    },
    Case {
        name: "a client of a text that isn't TOML",
        words: &["client"],
        input: b"lane",
        status: 3,
        written: b"bad settings toml\n",
    },
    Case {
        name: "a listen that fails",
        words: &["serve"],
        input: HELPER,
        status: 6,
        written: b"net fault\n",
    },
    Case {
        name: "mill of nothing",
        words: &["mill", "0"],
        input: b"",
        status: 0,
        written: b"mill 0\n\
registered 64\n\
accepted 0\n\
messages 64\n\
journal 128\n\
fold 00000000000000000000000000000000\n\
end\n",
    },
    Case {
        name: "mill of too much",
        words: &["mill", "5001"],
        input: b"",
        status: 2,
        written: USAGE,
    },
];
