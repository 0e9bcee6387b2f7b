/// Lines and what they say. Another implementation of the syntax, tools/word_table.py, gives the same rows. A row has
/// the separator, the line, and what it says: nothing, a command, or the number of a word and what is wrong. A value is
/// the number of its word and its places in the line. `~` stands for a zero byte, a grave accent for a tab, `^` for a
/// carriage return, `!` and `%` for bytes that are no text, and `{` and `}` for 262,140 and 37,855 letters.
pub const LINES: &str = r#"B||none
B|   |none
B|`` `|none
B|#|none
B|# dump a.img|none
B| `# dump|none
B|#dump|none
Z||none
Z|#|usage 0 UnknownVerb
Z|#~a.img|usage 0 UnknownVerb
Z|~|usage 0 UnknownVerb
Z|~dump|usage 0 UnknownVerb
Z|dump|usage 1 OperandCount
B|dump|usage 1 OperandCount
B|dump a.img|Dump { prov: 1@5..10 }
B| dump` a.img `|Dump { prov: 1@7..12 }
B|dump`a.img|Dump { prov: 1@5..10 }
B|dump  a.img|Dump { prov: 1@6..11 }
Z|dump~a.img|Dump { prov: 1@5..10 }
Z|dump~~|usage 3 OperandCount
Z|dump~~a.img|usage 3 OperandCount
Z|dump~|Dump { prov: 1@5..5 }
Z|dump~a b`c|Dump { prov: 1@5..10 }
Z|dump a.img|usage 0 UnknownVerb
Z|dump~a.img~|usage 3 OperandCount
B|dump~a.img|usage 0 UnknownVerb
B|dump a.img^|Dump { prov: 1@5..11 }
B|dump^a.img|usage 0 UnknownVerb
B|Dump a.img|usage 0 UnknownVerb
B|dumps a.img|usage 0 UnknownVerb
B|dum a.img|usage 0 UnknownVerb
B|script a.img|usage 0 UnknownVerb
B|detach a.img|Detach { prov: 1@7..12 }
B|list|List
B|eject a.img|Eject { prov: 1@6..11 }
B|suspend a.img|Suspend { prov: 1@8..13 }
B|suspend -v a.img|Suspend { prov: 2@11..16 }
B|suspend -k k a.img|usage 1 UnknownOption
B|suspend|usage 1 OperandCount
B|resume -k k -j p a.img|Resume { prov: 5@17..22, old: KeyWords { files: [2@10..11], pass: [4@15..16], without: false } }
B|resume -pvkk a.img|Resume { prov: 2@13..18, old: KeyWords { files: [1@11..12], pass: [], without: true } }
B|resume -p -j p a.img|usage 5 Exclusive
B|resume -n 0 -k k a.img|usage 1 UnknownOption
B|verify a.img v 1|Verify { prov: 1@7..12, file: 2@13..14, count: 1, restart: false }
B|verify -r a.img v 300|Verify { prov: 2@10..15, file: 3@16..17, count: 300, restart: true }
B|verify -vr a.img v 9223372036854775807|Verify { prov: 2@11..16, file: 3@17..18, count: 9223372036854775807, restart: true }
B|verify a.img - 5|usage 2 DashFile
B|verify a.img v 0|usage 3 BadNumber
B|verify a.img v 9223372036854775808|usage 3 BadNumber
B|verify a.img v|usage 3 OperandCount
B|verify -f a.img v 1|usage 1 UnknownOption
B|submit a.img|usage 2 OperandCount
B|submit a.img flush 0|usage 4 OperandCount
B|submit a.img flush|Submit { prov: 1@7..12, job: Flush }
B|submit a.img read 7 256|Submit { prov: 1@7..12, job: Read { sector: 7, count: 256 } }
B|submit a.img write 9223372036854775807 00fF|Submit { prov: 1@7..12, job: Write { sector: 9223372036854775807, hex: 4@39..43 } }
B|submit a.img flush 0 1|usage 2 BadName
B|submit a.img read|usage 2 BadName
B|submit a.img x|usage 2 BadName
B|submit a.img write 0 1|usage 4 BadHex
B|submit a.img read 0 257|usage 4 BadNumber
B|submit a.img read x 257|usage 3 BadNumber
B|submit -v a.img flush|usage 1 UnknownOption
B|step a.img 32|usage 2 BadNumber
B|step a.img|usage 2 OperandCount
B|reap a.img x|usage 2 BadNumber
B|submit a.img write|usage 2 BadName
B|submit a.img Flush|usage 2 BadName
B|submit a.img READ 0 1|usage 2 BadName
B|submit a.img flush x|usage 4 OperandCount
B|submit a.img flush 0 1 2|usage 6 OperandCount
B|submit|usage 1 OperandCount
B|submit a.img read 0 0|usage 4 BadNumber
B|submit a.img read 9223372036854775808 1|usage 3 BadNumber
B|submit a.img write x zz|usage 3 BadNumber
B|submit a.img write 0 zz|usage 4 BadHex
B|submit -- a.img flush|Submit { prov: 2@10..15, job: Flush }
B|submit - flush|Submit { prov: 1@7..8, job: Flush }
B|step a.img 31|Step { prov: 1@5..10, tag: 31 }
B|step a.img 00000000000000000031|Step { prov: 1@5..10, tag: 31 }
B|step a.img -1|usage 2 BadNumber
B|reap a.img 32|usage 2 BadNumber
B|reap -v a.img 0|usage 1 UnknownOption
B|reap a.img 0 0|usage 4 OperandCount
B|suspend -p a.img|usage 1 UnknownOption
B|resume -p -j x a.img|usage 5 Exclusive
B|resume -n 0 a.img|usage 1 UnknownOption
B|suspend -f a.img|usage 1 UnknownOption
B|resume|usage 1 OperandCount
B|resume -p -j x|usage 4 OperandCount
B|resume -j x -p a.img|usage 5 Exclusive
B|resume -r a.img|usage 1 UnknownOption
B|resume -k - a.img|usage 2 DashFile
B|resume -k k -k k -k k -k k -k k -k k -k k -k k -k k -k k -k k -k k -k k -k k -k k -k k -k k a.img|usage 34 TooManyFiles
B|resume -k|usage 2 MissingValue
B|verify a.img - x|usage 2 DashFile
B|verify a.img v 9223372036854775807|Verify { prov: 1@7..12, file: 2@13..14, count: 9223372036854775807, restart: false }
B|verify -r - v 1|Verify { prov: 2@10..11, file: 3@12..13, count: 1, restart: true }
B|verify -rf a.img v 1|usage 1 UnknownOption
B|verify -r -v -- a.img -v 1|Verify { prov: 4@16..21, file: 5@22..24, count: 1, restart: true }
B|submit -- -x flush|Submit { prov: 2@10..12, job: Flush }
B|submit a.img flush x y z|usage 6 OperandCount
B|submit a.img write 0 {aaaa|Submit { prov: 1@7..12, job: Write { sector: 0, hex: 4@21..262165 } }
B|submit a.img write 0 {aaaaaa|usage 4 BadHex
B|submit a.img rea 0 1|usage 2 BadName
B|submit a.img read 0 1 2|usage 6 OperandCount
B|step -- a.img 0|Step { prov: 2@8..13, tag: 0 }
B|step a.img 0 0|usage 4 OperandCount
B|reap a.img 0|Reap { prov: 1@5..10, tag: 0 }
B|reap a.img 256|usage 2 BadNumber
B|resume a.img|Resume { prov: 1@7..12, old: KeyWords { files: [], pass: [], without: false } }
B|resume -k k|usage 3 OperandCount
B|verify a.img v -1|usage 3 BadNumber
Z|submit~a.img~flush|Submit { prov: 1@7..12, job: Flush }
Z|submit~a.img~|usage 2 BadName
Z|submit~~read~0~1|Submit { prov: 1@7..7, job: Read { sector: 0, count: 1 } }
Z|step~a.img~|usage 2 BadNumber
B|-v dump a.img|usage 0 UnknownVerb
B|dump #|Dump { prov: 1@5..6 }
B|dump -v a.img|Dump { prov: 2@8..13 }
B|dump -- a.img|Dump { prov: 2@8..13 }
B|dump -v -- a.img|Dump { prov: 3@11..16 }
B|dump -- -v|Dump { prov: 2@8..10 }
B|dump -- --|Dump { prov: 2@8..10 }
B|dump -- - |Dump { prov: 2@8..9 }
B|dump -|Dump { prov: 1@5..6 }
B|dump -vvv -v a.img|Dump { prov: 3@13..18 }
B|dump a.img -v|usage 3 OperandCount
B|dump a.img --|usage 3 OperandCount
B|dump a.img b.img|usage 3 OperandCount
B|dump -- a.img b.img c.img|usage 5 OperandCount
B|dump -p a.img|usage 1 UnknownOption
B|dump -vp a.img|usage 1 UnknownOption
B|dump -pv a.img|usage 1 UnknownOption
B|dump ---|usage 1 UnknownOption
B|dump --v a.img|usage 1 UnknownOption
B|dump -v- a.img|usage 1 UnknownOption
B|dump -k k a.img|usage 1 UnknownOption
B|dump naïve.img|Dump { prov: 1@5..15 }
B|dump -é a.img|usage 1 UnknownOption
Z|dump~-~|usage 3 OperandCount
Z|dump~-v~~|usage 4 OperandCount
Z|dump~--~|Dump { prov: 2@8..8 }
Z|dump~--|usage 2 OperandCount
Z|dump~-v~a.img|Dump { prov: 2@8..13 }
B|init a.img|Init { prov: 1@5..10, cipher: AesXts, auth: Off, keylen: 128, sectorsize: 512, iterations: None, autoresize: true, fresh: KeyWords { files: [], pass: [], without: false }, backup: None }
B|init|usage 1 OperandCount
B|init a.img b.img|usage 3 OperandCount
B|init -P -K k a.img|Init { prov: 4@13..18, cipher: AesXts, auth: Off, keylen: 128, sectorsize: 512, iterations: None, autoresize: true, fresh: KeyWords { files: [3@11..12], pass: [], without: true }, backup: None }
B|init -PK k a.img|Init { prov: 3@11..16, cipher: AesXts, auth: Off, keylen: 128, sectorsize: 512, iterations: None, autoresize: true, fresh: KeyWords { files: [2@9..10], pass: [], without: true }, backup: None }
B|init -PKk a.img|Init { prov: 2@10..15, cipher: AesXts, auth: Off, keylen: 128, sectorsize: 512, iterations: None, autoresize: true, fresh: KeyWords { files: [1@8..9], pass: [], without: true }, backup: None }
B|init -K k -J p -i 1000 a.img|Init { prov: 7@23..28, cipher: AesXts, auth: Off, keylen: 128, sectorsize: 512, iterations: Some(1000), autoresize: true, fresh: KeyWords { files: [2@8..9], pass: [4@13..14], without: false }, backup: None }
B|init -s 4096 -K k -J p -i 1000 a.img|Init { prov: 9@31..36, cipher: AesXts, auth: Off, keylen: 128, sectorsize: 4096, iterations: Some(1000), autoresize: true, fresh: KeyWords { files: [4@16..17], pass: [6@21..22], without: false }, backup: None }
B|init -B b -K k -J p -i 1000 a.img|Init { prov: 9@28..33, cipher: AesXts, auth: Off, keylen: 128, sectorsize: 512, iterations: Some(1000), autoresize: true, fresh: KeyWords { files: [4@13..14], pass: [6@18..19], without: false }, backup: Some(2@8..9) }
B|init -Bb -Kk -Jp -i1000 -s4096 -l256 -eAES-CBC -aHMAC/SHA256 -R a.img|Init { prov: 10@64..69, cipher: AesCbc, auth: Sha256, keylen: 256, sectorsize: 4096, iterations: Some(1000), autoresize: false, fresh: KeyWords { files: [2@11..12], pass: [3@15..16], without: false }, backup: Some(1@7..8) }
B|init -B none a.img|Init { prov: 3@13..18, cipher: AesXts, auth: Off, keylen: 128, sectorsize: 512, iterations: None, autoresize: true, fresh: KeyWords { files: [], pass: [], without: false }, backup: None }
B|init -B None a.img|Init { prov: 3@13..18, cipher: AesXts, auth: Off, keylen: 128, sectorsize: 512, iterations: None, autoresize: true, fresh: KeyWords { files: [], pass: [], without: false }, backup: Some(2@8..12) }
B|init -B x -B none a.img|Init { prov: 5@18..23, cipher: AesXts, auth: Off, keylen: 128, sectorsize: 512, iterations: None, autoresize: true, fresh: KeyWords { files: [], pass: [], without: false }, backup: None }
B|init -B none -B x a.img|Init { prov: 5@18..23, cipher: AesXts, auth: Off, keylen: 128, sectorsize: 512, iterations: None, autoresize: true, fresh: KeyWords { files: [], pass: [], without: false }, backup: Some(4@16..17) }
B|init -B - a.img|usage 2 DashFile
B|init -B-x a.img|Init { prov: 2@10..15, cipher: AesXts, auth: Off, keylen: 128, sectorsize: 512, iterations: None, autoresize: true, fresh: KeyWords { files: [], pass: [], without: false }, backup: Some(1@7..9) }
B|init -B|usage 2 MissingValue
B|init -B -- a.img|Init { prov: 3@11..16, cipher: AesXts, auth: Off, keylen: 128, sectorsize: 512, iterations: None, autoresize: true, fresh: KeyWords { files: [], pass: [], without: false }, backup: Some(2@8..10) }
B|init -B -R a.img|Init { prov: 3@11..16, cipher: AesXts, auth: Off, keylen: 128, sectorsize: 512, iterations: None, autoresize: true, fresh: KeyWords { files: [], pass: [], without: false }, backup: Some(2@8..10) }
B|init -e AES-XTS a.img|Init { prov: 3@16..21, cipher: AesXts, auth: Off, keylen: 128, sectorsize: 512, iterations: None, autoresize: true, fresh: KeyWords { files: [], pass: [], without: false }, backup: None }
B|init -e aes-xts a.img|Init { prov: 3@16..21, cipher: AesXts, auth: Off, keylen: 128, sectorsize: 512, iterations: None, autoresize: true, fresh: KeyWords { files: [], pass: [], without: false }, backup: None }
B|init -e Aes-Cbc a.img|Init { prov: 3@16..21, cipher: AesCbc, auth: Off, keylen: 128, sectorsize: 512, iterations: None, autoresize: true, fresh: KeyWords { files: [], pass: [], without: false }, backup: None }
B|init -e AES a.img|usage 2 BadName
B|init -e NULL -K k -J p a.img|usage 2 BadName
B|init -e AES-XTS -e NULL a.img|usage 4 BadName
B|init -e NULL -e AES-XTS a.img|usage 2 BadName
B|init -e AES-CBC -e AES-XTS a.img|Init { prov: 5@27..32, cipher: AesXts, auth: Off, keylen: 128, sectorsize: 512, iterations: None, autoresize: true, fresh: KeyWords { files: [], pass: [], without: false }, backup: None }
B|init -eAES_XTS a.img|usage 1 BadName
B|init -a HMAC/SHA256 a.img|Init { prov: 3@20..25, cipher: AesXts, auth: Sha256, keylen: 128, sectorsize: 512, iterations: None, autoresize: true, fresh: KeyWords { files: [], pass: [], without: false }, backup: None }
B|init -a hmac/sha256 a.img|Init { prov: 3@20..25, cipher: AesXts, auth: Sha256, keylen: 128, sectorsize: 512, iterations: None, autoresize: true, fresh: KeyWords { files: [], pass: [], without: false }, backup: None }
B|init -a HMAC/SHA1 a.img|usage 2 BadName
B|init -a HMAC/SHA384 a.img|Init { prov: 3@20..25, cipher: AesXts, auth: Sha384, keylen: 128, sectorsize: 512, iterations: None, autoresize: true, fresh: KeyWords { files: [], pass: [], without: false }, backup: None }
B|init -a Hmac/Sha512 a.img|Init { prov: 3@20..25, cipher: AesXts, auth: Sha512, keylen: 128, sectorsize: 512, iterations: None, autoresize: true, fresh: KeyWords { files: [], pass: [], without: false }, backup: None }
B|init -a HMAC/SHA512 -a HMAC/SHA384 a.img|Init { prov: 5@35..40, cipher: AesXts, auth: Sha384, keylen: 128, sectorsize: 512, iterations: None, autoresize: true, fresh: KeyWords { files: [], pass: [], without: false }, backup: None }
B|init -a HMAC/SHA224 a.img|usage 2 BadName
B|init -a HMAC/SHA512 a.img|Init { prov: 3@20..25, cipher: AesXts, auth: Sha512, keylen: 128, sectorsize: 512, iterations: None, autoresize: true, fresh: KeyWords { files: [], pass: [], without: false }, backup: None }
B|init -a|usage 2 MissingValue
Z|init~-a~~a.img|usage 2 BadName
Z|init~-e~~a.img|usage 2 BadName
Z|init~-i~~a.img|usage 2 BadNumber
Z|init~-K~~a.img|Init { prov: 3@9..14, cipher: AesXts, auth: Off, keylen: 128, sectorsize: 512, iterations: None, autoresize: true, fresh: KeyWords { files: [2@8..8], pass: [], without: false }, backup: None }
Z|init~-B~~a.img|Init { prov: 3@9..14, cipher: AesXts, auth: Off, keylen: 128, sectorsize: 512, iterations: None, autoresize: true, fresh: KeyWords { files: [], pass: [], without: false }, backup: Some(2@8..8) }
B|init -i 0 a.img|Init { prov: 3@10..15, cipher: AesXts, auth: Off, keylen: 128, sectorsize: 512, iterations: Some(0), autoresize: true, fresh: KeyWords { files: [], pass: [], without: false }, backup: None }
B|init -i 2147483647 a.img|Init { prov: 3@19..24, cipher: AesXts, auth: Off, keylen: 128, sectorsize: 512, iterations: Some(2147483647), autoresize: true, fresh: KeyWords { files: [], pass: [], without: false }, backup: None }
B|init -i 2147483648 a.img|usage 2 BadNumber
B|init -i -1 a.img|usage 2 BadNumber
B|init -i 1k a.img|usage 2 BadNumber
B|init -i +1 a.img|usage 2 BadNumber
B|init -i 00000000000000000001 a.img|Init { prov: 3@29..34, cipher: AesXts, auth: Off, keylen: 128, sectorsize: 512, iterations: Some(1), autoresize: true, fresh: KeyWords { files: [], pass: [], without: false }, backup: None }
B|init -i 000000000000000000001 a.img|usage 2 BadNumber
B|init -i 99999999999999999999 a.img|usage 2 BadNumber
B|init -i 18446744073709551617 a.img|usage 2 BadNumber
B|init -i 5 -i 7 a.img|Init { prov: 5@15..20, cipher: AesXts, auth: Off, keylen: 128, sectorsize: 512, iterations: Some(7), autoresize: true, fresh: KeyWords { files: [], pass: [], without: false }, backup: None }
B|init -i|usage 2 MissingValue
B|init -i 1 x|Init { prov: 3@10..11, cipher: AesXts, auth: Off, keylen: 128, sectorsize: 512, iterations: Some(1), autoresize: true, fresh: KeyWords { files: [], pass: [], without: false }, backup: None }
B|init -l 0 a.img|Init { prov: 3@10..15, cipher: AesXts, auth: Off, keylen: 0, sectorsize: 512, iterations: None, autoresize: true, fresh: KeyWords { files: [], pass: [], without: false }, backup: None }
B|init -l 65535 a.img|Init { prov: 3@14..19, cipher: AesXts, auth: Off, keylen: 65535, sectorsize: 512, iterations: None, autoresize: true, fresh: KeyWords { files: [], pass: [], without: false }, backup: None }
B|init -l 65536 a.img|usage 2 BadNumber
B|init -l 128 -l 192 a.img|Init { prov: 5@19..24, cipher: AesXts, auth: Off, keylen: 192, sectorsize: 512, iterations: None, autoresize: true, fresh: KeyWords { files: [], pass: [], without: false }, backup: None }
B|init -l 0x80 a.img|usage 2 BadNumber
B|init -s 0 a.img|Init { prov: 3@10..15, cipher: AesXts, auth: Off, keylen: 128, sectorsize: 0, iterations: None, autoresize: true, fresh: KeyWords { files: [], pass: [], without: false }, backup: None }
B|init -s 4294967295 a.img|Init { prov: 3@19..24, cipher: AesXts, auth: Off, keylen: 128, sectorsize: 4294967295, iterations: None, autoresize: true, fresh: KeyWords { files: [], pass: [], without: false }, backup: None }
B|init -s 4294967296 a.img|usage 2 BadNumber
B|init -s 1000 a.img|Init { prov: 3@13..18, cipher: AesXts, auth: Off, keylen: 128, sectorsize: 1000, iterations: None, autoresize: true, fresh: KeyWords { files: [], pass: [], without: false }, backup: None }
B|init -s4k a.img|usage 1 BadNumber
B|init -s 18446744073709551616 a.img|usage 2 BadNumber
B|init -s 18446744073714544640 a.img|usage 2 BadNumber
B|init -R a.img|Init { prov: 2@8..13, cipher: AesXts, auth: Off, keylen: 128, sectorsize: 512, iterations: None, autoresize: false, fresh: KeyWords { files: [], pass: [], without: false }, backup: None }
B|init -RR -R a.img|Init { prov: 3@12..17, cipher: AesXts, auth: Off, keylen: 128, sectorsize: 512, iterations: None, autoresize: false, fresh: KeyWords { files: [], pass: [], without: false }, backup: None }
B|init -RvP a.img|Init { prov: 2@10..15, cipher: AesXts, auth: Off, keylen: 128, sectorsize: 512, iterations: None, autoresize: false, fresh: KeyWords { files: [], pass: [], without: true }, backup: None }
B|init -P -J p a.img|usage 5 Exclusive
B|init -J p -P a.img|usage 5 Exclusive
B|init -P -i 5 a.img|usage 5 Exclusive
B|init -i 5 -P a.img|usage 5 Exclusive
B|init -P -i 5|usage 4 OperandCount
B|init -P -J p a.img b.img|usage 6 OperandCount
B|init -p a.img|usage 1 UnknownOption
B|init -k k a.img|usage 1 UnknownOption
B|init -n 0 a.img|usage 1 UnknownOption
B|init -r a.img|usage 1 UnknownOption
B|init -K - a.img|usage 2 DashFile
B|init -J - a.img|usage 2 DashFile
B|init -K-a -J-b a.img|Init { prov: 3@15..20, cipher: AesXts, auth: Off, keylen: 128, sectorsize: 512, iterations: None, autoresize: true, fresh: KeyWords { files: [1@7..9], pass: [2@12..14], without: false }, backup: None }
B|init -K -- -J -v a.img|Init { prov: 5@17..22, cipher: AesXts, auth: Off, keylen: 128, sectorsize: 512, iterations: None, autoresize: true, fresh: KeyWords { files: [2@8..10], pass: [4@14..16], without: false }, backup: None }
B|init -K a -K b -J c -K d -J e a.img|Init { prov: 11@30..35, cipher: AesXts, auth: Off, keylen: 128, sectorsize: 512, iterations: None, autoresize: true, fresh: KeyWords { files: [2@8..9, 4@13..14, 8@23..24], pass: [6@18..19, 10@28..29], without: false }, backup: None }
B|init -Ka -Kb -Kc -Kd -Ke -Kf -Kg -Kh -Ki -Kj -Kk -Kl -Km -Kn -Ko -Kp a.img|Init { prov: 17@69..74, cipher: AesXts, auth: Off, keylen: 128, sectorsize: 512, iterations: None, autoresize: true, fresh: KeyWords { files: [1@7..8, 2@11..12, 3@15..16, 4@19..20, 5@23..24, 6@27..28, 7@31..32, 8@35..36, 9@39..40, 10@43..44, 11@47..48, 12@51..52, 13@55..56, 14@59..60, 15@63..64, 16@67..68], pass: [], without: false }, backup: None }
B|init -Ka -Kb -Kc -Kd -Ke -Kf -Kg -Kh -Ki -Kj -Kk -Kl -Km -Kn -Ko -Kp -Kq a.img|usage 17 TooManyFiles
B|init -Ka -Kb -Kc -Kd -Ke -Kf -Kg -Kh -Ki -Kj -Kk -Kl -Km -Kn -Ko -Kp -K- a.img|usage 17 DashFile
B|init -Ka -Kb -Kc -Kd -Ke -Kf -Kg -Kh -Ki -Kj -Kk -Kl -Km -Kn -Ko -Kp -J q a.img|Init { prov: 19@74..79, cipher: AesXts, auth: Off, keylen: 128, sectorsize: 512, iterations: None, autoresize: true, fresh: KeyWords { files: [1@7..8, 2@11..12, 3@15..16, 4@19..20, 5@23..24, 6@27..28, 7@31..32, 8@35..36, 9@39..40, 10@43..44, 11@47..48, 12@51..52, 13@55..56, 14@59..60, 15@63..64, 16@67..68], pass: [18@72..73], without: false }, backup: None }
B|init -Z -i x a.img|usage 1 UnknownOption
B|init -i x -Z a.img|usage 2 BadNumber
B|init -K|usage 2 MissingValue
B|init -RK|usage 2 MissingValue
B|init -i x|usage 2 BadNumber
B|init -K k -- -x|Init { prov: 4@13..15, cipher: AesXts, auth: Off, keylen: 128, sectorsize: 512, iterations: None, autoresize: true, fresh: KeyWords { files: [2@8..9], pass: [], without: false }, backup: None }
Z|init~-K~a b~-J~p~x`y|Init { prov: 5@17..20, cipher: AesXts, auth: Off, keylen: 128, sectorsize: 512, iterations: None, autoresize: true, fresh: KeyWords { files: [2@8..11], pass: [4@15..16], without: false }, backup: None }
Z|init~-Kk~-P~a.img|Init { prov: 3@12..17, cipher: AesXts, auth: Off, keylen: 128, sectorsize: 512, iterations: None, autoresize: true, fresh: KeyWords { files: [1@7..8], pass: [], without: true }, backup: None }
Z|init~-P~-K~k~a.img|Init { prov: 4@13..18, cipher: AesXts, auth: Off, keylen: 128, sectorsize: 512, iterations: None, autoresize: true, fresh: KeyWords { files: [3@11..12], pass: [], without: true }, backup: None }
B|attach a.img|Attach { prov: 1@7..12, only_check: false, readonly: false, slot: None, old: KeyWords { files: [], pass: [], without: false } }
B|attach|usage 1 OperandCount
B|attach -C a.img|Attach { prov: 2@10..15, only_check: true, readonly: false, slot: None, old: KeyWords { files: [], pass: [], without: false } }
B|attach -C -k k -j p a.img|Attach { prov: 6@20..25, only_check: true, readonly: false, slot: None, old: KeyWords { files: [3@13..14], pass: [5@18..19], without: false } }
B|attach -C -kk -jp a.img|Attach { prov: 4@18..23, only_check: true, readonly: false, slot: None, old: KeyWords { files: [2@12..13], pass: [3@16..17], without: false } }
B|attach -Cpkk a.img|Attach { prov: 2@13..18, only_check: true, readonly: false, slot: None, old: KeyWords { files: [1@11..12], pass: [], without: true } }
B|attach -pkk a.img|Attach { prov: 2@12..17, only_check: false, readonly: false, slot: None, old: KeyWords { files: [1@10..11], pass: [], without: true } }
B|attach -C -n 0 a.img|Attach { prov: 4@15..20, only_check: true, readonly: false, slot: Some(0), old: KeyWords { files: [], pass: [], without: false } }
B|attach -C -n 1 -k k -j p a.img|Attach { prov: 8@25..30, only_check: true, readonly: false, slot: Some(1), old: KeyWords { files: [5@18..19], pass: [7@23..24], without: false } }
B|attach -C -n 255 a.img|Attach { prov: 4@17..22, only_check: true, readonly: false, slot: Some(255), old: KeyWords { files: [], pass: [], without: false } }
B|attach -C -n 256 a.img|usage 3 BadNumber
B|attach -C -n -1 a.img|usage 3 BadNumber
B|attach -n x|usage 2 BadNumber
B|attach -C -n 1 -n 2 a.img|Attach { prov: 6@20..25, only_check: true, readonly: false, slot: Some(2), old: KeyWords { files: [], pass: [], without: false } }
B|attach -C -r a.img|Attach { prov: 3@13..18, only_check: true, readonly: true, slot: None, old: KeyWords { files: [], pass: [], without: false } }
B|attach -rCv a.img|Attach { prov: 2@12..17, only_check: true, readonly: true, slot: None, old: KeyWords { files: [], pass: [], without: false } }
B|attach -C -p a.img|Attach { prov: 3@13..18, only_check: true, readonly: false, slot: None, old: KeyWords { files: [], pass: [], without: true } }
B|attach -C -k k -j p -p a.img|usage 8 Exclusive
B|attach -C -p -j p a.img|usage 6 Exclusive
B|attach -p -j p a.img|usage 5 Exclusive
B|attach -k k -j p a.img|Attach { prov: 5@17..22, only_check: false, readonly: false, slot: None, old: KeyWords { files: [2@10..11], pass: [4@15..16], without: false } }
B|attach -Z a.img|usage 1 UnknownOption
B|attach -CZ a.img|usage 1 UnknownOption
B|attach -C -k none -j p a.img|Attach { prov: 6@23..28, only_check: true, readonly: false, slot: None, old: KeyWords { files: [3@13..17], pass: [5@21..22], without: false } }
B|attach -C -k - a.img|usage 3 DashFile
B|attach -C -j - a.img|usage 3 DashFile
B|attach -C -ja -jb -jc -jd -je -jf -jg -jh -ji -jj -jk -jl -jm -jn -jo -jp a.img|Attach { prov: 18@74..79, only_check: true, readonly: false, slot: None, old: KeyWords { files: [], pass: [2@12..13, 3@16..17, 4@20..21, 5@24..25, 6@28..29, 7@32..33, 8@36..37, 9@40..41, 10@44..45, 11@48..49, 12@52..53, 13@56..57, 14@60..61, 15@64..65, 16@68..69, 17@72..73], without: false } }
B|attach -C -ja -jb -jc -jd -je -jf -jg -jh -ji -jj -jk -jl -jm -jn -jo -jp -jq a.img|usage 18 TooManyFiles
B|attach -C -ka -ja -kb -jb -k c -j d a.img|Attach { prov: 10@36..41, only_check: true, readonly: false, slot: None, old: KeyWords { files: [2@12..13, 4@20..21, 7@29..30], pass: [3@16..17, 5@24..25, 9@34..35], without: false } }
B|attach -C a.img b.img|usage 4 OperandCount
B|attach a.img b.img|usage 3 OperandCount
B|attach -C -k|usage 3 MissingValue
B|attach -C -k k -- a.img|Attach { prov: 5@18..23, only_check: true, readonly: false, slot: None, old: KeyWords { files: [3@13..14], pass: [], without: false } }
B|attach -C -k k -- -a.img|Attach { prov: 5@18..24, only_check: true, readonly: false, slot: None, old: KeyWords { files: [3@13..14], pass: [], without: false } }
B|attach -C -K k a.img|usage 2 UnknownOption
B|attach -C -d a.img|usage 2 UnknownOption
B|attach -C -i 5 a.img|usage 2 UnknownOption
B|attach -C # a.img|usage 4 OperandCount
Z|attach~-C~-k~~-j~-~a.img|usage 5 DashFile
Z|attach~-C~-k~my key~-j~p~a.img|Attach { prov: 6@25..30, only_check: true, readonly: false, slot: None, old: KeyWords { files: [3@13..19], pass: [5@23..24], without: false } }
Z|attach~-C~~|usage 4 OperandCount
Z|attach~-C~|Attach { prov: 2@10..10, only_check: true, readonly: false, slot: None, old: KeyWords { files: [], pass: [], without: false } }
Z|attach~-n~|usage 2 BadNumber
B|attach -C -nn a.img|usage 2 BadNumber
B|attach -C -n1 -- a.img|Attach { prov: 4@17..22, only_check: true, readonly: false, slot: Some(1), old: KeyWords { files: [], pass: [], without: false } }
B|attach -C -n 01 a.img|Attach { prov: 4@16..21, only_check: true, readonly: false, slot: Some(1), old: KeyWords { files: [], pass: [], without: false } }
B|init -a Hmac/Sha384 a.img|Init { prov: 3@20..25, cipher: AesXts, auth: Sha384, keylen: 128, sectorsize: 512, iterations: None, autoresize: true, fresh: KeyWords { files: [], pass: [], without: false }, backup: None }
B|init -ahmac/sha512 a.img|Init { prov: 2@19..24, cipher: AesXts, auth: Sha512, keylen: 128, sectorsize: 512, iterations: None, autoresize: true, fresh: KeyWords { files: [], pass: [], without: false }, backup: None }
B|init -a HMAC/SHA512 -a HMAC/SHA256 a.img|Init { prov: 5@35..40, cipher: AesXts, auth: Sha256, keylen: 128, sectorsize: 512, iterations: None, autoresize: true, fresh: KeyWords { files: [], pass: [], without: false }, backup: None }
B|init -a HMAC/SHA512 -a HMAC/SHA1 a.img|usage 4 BadName
B|init -a HMAC-SHA384 a.img|usage 2 BadName
B|init -a HMAC/SHA38 a.img|usage 2 BadName
B|init -a HMAC/MD5 a.img|usage 2 BadName
B|attach -C -r -n 1 -p -k k a.img|Attach { prov: 8@26..31, only_check: true, readonly: true, slot: Some(1), old: KeyWords { files: [7@24..25], pass: [], without: true } }
B|attach -C x -r a.img|usage 5 OperandCount
B|attach -k- a.img|usage 1 DashFile
B|attach -jp -p -- a.img|usage 5 Exclusive
B|attach -r -n x a.img|usage 3 BadNumber
B|attach -nZ a.img|usage 1 BadNumber
B|attach -- -k a.img|usage 4 OperandCount
B|detach -f a.img|Detach { prov: 2@10..15 }
B|detach -ffv a.img|Detach { prov: 2@12..17 }
B|detach -l a.img|usage 1 UnknownOption
B|detach -a a.img|usage 1 UnknownOption
B|detach|usage 1 OperandCount
B|detach a.img b.img|usage 3 OperandCount
B|detach -f|usage 2 OperandCount
B|detach -- -f|Detach { prov: 2@10..12 }
B|setkey a.img|Setkey { prov: 1@7..12, iterations: None, slot: None, old: KeyWords { files: [], pass: [], without: false }, fresh: KeyWords { files: [], pass: [], without: false } }
B|setkey -n 1 -k k -j p -K k -J q a.img|Setkey { prov: 11@32..37, iterations: None, slot: Some(1), old: KeyWords { files: [4@15..16], pass: [6@20..21], without: false }, fresh: KeyWords { files: [8@25..26], pass: [10@30..31], without: false } }
B|setkey -p -P -kk -Kl a.img|Setkey { prov: 5@21..26, iterations: None, slot: None, old: KeyWords { files: [3@15..16], pass: [], without: true }, fresh: KeyWords { files: [4@19..20], pass: [], without: true } }
B|setkey -i 5 -P -K k a.img|Setkey { prov: 6@20..25, iterations: Some(5), slot: None, old: KeyWords { files: [], pass: [], without: false }, fresh: KeyWords { files: [5@18..19], pass: [], without: true } }
B|setkey -P -i 5 a.img|Setkey { prov: 4@15..20, iterations: Some(5), slot: None, old: KeyWords { files: [], pass: [], without: false }, fresh: KeyWords { files: [], pass: [], without: true } }
B|setkey -i 2147483647 -n 0 -v a.img|Setkey { prov: 6@29..34, iterations: Some(2147483647), slot: Some(0), old: KeyWords { files: [], pass: [], without: false }, fresh: KeyWords { files: [], pass: [], without: false } }
B|setkey -i 2147483648 a.img|usage 2 BadNumber
B|setkey -i -5 a.img|usage 2 BadNumber
B|setkey -n 255 a.img|Setkey { prov: 3@14..19, iterations: None, slot: Some(255), old: KeyWords { files: [], pass: [], without: false }, fresh: KeyWords { files: [], pass: [], without: false } }
B|setkey -n 256 a.img|usage 2 BadNumber
B|setkey -p -j x a.img|usage 5 Exclusive
B|setkey -P -J x a.img|usage 5 Exclusive
B|setkey -p -J x a.img|Setkey { prov: 4@15..20, iterations: None, slot: None, old: KeyWords { files: [], pass: [], without: true }, fresh: KeyWords { files: [], pass: [3@13..14], without: false } }
B|setkey -P -j x a.img|Setkey { prov: 4@15..20, iterations: None, slot: None, old: KeyWords { files: [], pass: [3@13..14], without: false }, fresh: KeyWords { files: [], pass: [], without: true } }
B|setkey -ka -Kb -jc -Jd -ke -Kf -jg -Jh a.img|Setkey { prov: 9@39..44, iterations: None, slot: None, old: KeyWords { files: [1@9..10, 5@25..26], pass: [3@17..18, 7@33..34], without: false }, fresh: KeyWords { files: [2@13..14, 6@29..30], pass: [4@21..22, 8@37..38], without: false } }
B|setkey -B b a.img|usage 1 UnknownOption
B|setkey -l 128 a.img|usage 1 UnknownOption
B|setkey -R a.img|usage 1 UnknownOption
B|setkey -k - a.img|usage 2 DashFile
B|setkey -K - a.img|usage 2 DashFile
B|setkey -j - a.img|usage 2 DashFile
B|setkey -J - a.img|usage 2 DashFile
B|setkey -J|usage 2 MissingValue
B|setkey -p -j x|usage 4 OperandCount
B|setkey|usage 1 OperandCount
B|setkey a.img b.img|usage 3 OperandCount
B|delkey a.img|Delkey { prov: 1@7..12, all: false, force: false, slot: None }
B|delkey -a a.img|Delkey { prov: 2@10..15, all: true, force: false, slot: None }
B|delkey -af a.img|Delkey { prov: 2@11..16, all: true, force: true, slot: None }
B|delkey -f -n 1 a.img|Delkey { prov: 4@15..20, all: false, force: true, slot: Some(1) }
B|delkey -n 0 -n 1 a.img|Delkey { prov: 5@17..22, all: false, force: false, slot: Some(1) }
B|delkey -n 0 -n x a.img|usage 4 BadNumber
B|delkey -n 256 a.img|usage 2 BadNumber
B|delkey -a -n 0 a.img|usage 5 Exclusive
B|delkey -n 0 -a a.img|usage 5 Exclusive
B|delkey -an0 a.img|usage 3 Exclusive
B|delkey -an0|usage 2 OperandCount
B|delkey -an|usage 2 MissingValue
B|delkey -vfa a.img|Delkey { prov: 2@12..17, all: true, force: true, slot: None }
B|delkey -p a.img|usage 1 UnknownOption
B|delkey|usage 1 OperandCount
B|kill a.img|Kill { prov: 1@5..10 }
B|kill -v a.img|Kill { prov: 2@8..13 }
B|kill -a a.img|usage 1 UnknownOption
B|kill -f a.img|usage 1 UnknownOption
B|kill|usage 1 OperandCount
B|kill a.img b.img|usage 3 OperandCount
B|backup a.img b|Backup { prov: 1@7..12, file: 2@13..14 }
B|backup -v a.img b|Backup { prov: 2@10..15, file: 3@16..17 }
B|backup a.img -|usage 2 DashFile
B|backup - b|Backup { prov: 1@7..8, file: 2@9..10 }
B|backup a.img|usage 2 OperandCount
B|backup a.img b c|usage 4 OperandCount
B|backup|usage 1 OperandCount
B|backup -f a.img b|usage 1 UnknownOption
B|backup -- -a -b|Backup { prov: 2@10..12, file: 3@13..15 }
B|backup a.img -v|Backup { prov: 1@7..12, file: 2@13..15 }
Z|backup~a.img~|Backup { prov: 1@7..12, file: 2@13..13 }
Z|backup~~b|Backup { prov: 1@7..7, file: 2@8..9 }
B|restore b a.img|Restore { file: 1@8..9, prov: 2@10..15, force: false }
B|restore -f b a.img|Restore { file: 2@11..12, prov: 3@13..18, force: true }
B|restore -vf b a.img|Restore { file: 2@12..13, prov: 3@14..19, force: true }
B|restore - a.img|usage 1 DashFile
B|restore -f - a.img|usage 2 DashFile
B|restore b -|Restore { file: 1@8..9, prov: 2@10..11, force: false }
B|restore b|usage 2 OperandCount
B|restore|usage 1 OperandCount
B|restore - |usage 2 OperandCount
B|restore b a.img c|usage 4 OperandCount
B|restore -n b a.img|usage 1 UnknownOption
B|restore b -f|Restore { file: 1@8..9, prov: 2@10..12, force: false }
B|resize -s 1048576 a.img|Resize { prov: 3@18..23, oldsize: 1048576 }
B|resize -s1048576 a.img|Resize { prov: 2@17..22, oldsize: 1048576 }
B|resize -v -s 1024 a.img|Resize { prov: 4@18..23, oldsize: 1024 }
B|resize -s 9007199254740480 a.img|Resize { prov: 3@27..32, oldsize: 9007199254740480 }
B|resize -s 9007199254740992 a.img|usage 2 BadNumber
B|resize -s 9007199254740991 a.img|usage 2 BadNumber
B|resize -s 1000 a.img|usage 2 BadNumber
B|resize -s 512 a.img|usage 2 BadNumber
B|resize -s 0 a.img|usage 2 BadNumber
B|resize -s 1025 a.img|usage 2 BadNumber
B|resize -s 1023 a.img|usage 2 BadNumber
B|resize -s 1536 a.img|Resize { prov: 3@15..20, oldsize: 1536 }
B|resize -s 1024 -s 2048 a.img|Resize { prov: 5@23..28, oldsize: 2048 }
B|resize -s 1024 -s 0 a.img|usage 4 BadNumber
B|resize -s 18446744073709552640 a.img|usage 2 BadNumber
B|resize -s|usage 2 MissingValue
B|resize -s 1000|usage 2 BadNumber
B|resize -s 1024|usage 3 OperandCount
B|resize|usage 1 OperandCount
B|resize a.img|usage 2 MissingOption
B|resize a.img b.img|usage 3 OperandCount
B|resize -n 0 a.img|usage 1 UnknownOption
B|dump -f a.img|usage 1 UnknownOption
B|read a.img 0 1|Read { prov: 1@5..10, sector: 0, count: 1 }
B|read a.img 254 1|Read { prov: 1@5..10, sector: 254, count: 1 }
B|read a.img 0 256|Read { prov: 1@5..10, sector: 0, count: 256 }
B|read a.img 0 257|usage 3 BadNumber
B|read a.img 0 0|usage 3 BadNumber
B|read a.img x 257|usage 2 BadNumber
B|read a.img 9223372036854775807 1|Read { prov: 1@5..10, sector: 9223372036854775807, count: 1 }
B|read a.img 9223372036854775808 1|usage 2 BadNumber
B|read a.img 000000000000000000000 1|usage 2 BadNumber
B|read a.img 00000000000000000000 1|Read { prov: 1@5..10, sector: 0, count: 1 }
B|read a.img -1 1|usage 2 BadNumber
B|read a.img 0 01|Read { prov: 1@5..10, sector: 0, count: 1 }
B|read a.img 0 0000000000000000000256|usage 3 BadNumber
B|read -1 a.img 1|usage 1 UnknownOption
B|read -v a.img 0 1|usage 1 UnknownOption
B|read -- a.img 0 1|Read { prov: 2@8..13, sector: 0, count: 1 }
B|read -- -v 0 1|Read { prov: 2@8..10, sector: 0, count: 1 }
B|read a.img 0|usage 3 OperandCount
B|read a.img|usage 2 OperandCount
B|read|usage 1 OperandCount
B|read a.img 0 1 2|usage 5 OperandCount
B|read a.img 0 1^|usage 3 BadNumber
B|read - 0 1|Read { prov: 1@5..6, sector: 0, count: 1 }
Z|read~a.img~~1|usage 2 BadNumber
Z|read~a.img~0~|usage 3 BadNumber
Z|read~~0~1|Read { prov: 1@5..5, sector: 0, count: 1 }
B|write a.img 0 00|Write { prov: 1@6..11, sector: 0, hex: 3@14..16 }
B|write a.img 0 5a5A|Write { prov: 1@6..11, sector: 0, hex: 3@14..18 }
B|write a.img 0 0123456789abcdefABCDEF|Write { prov: 1@6..11, sector: 0, hex: 3@14..36 }
B|write a.img 0 0|usage 3 BadHex
B|write a.img 0 000|usage 3 BadHex
B|write a.img 0 0g|usage 3 BadHex
B|write a.img 0 0x00|usage 3 BadHex
B|write a.img x 0g|usage 2 BadNumber
B|write a.img 9223372036854775807 ff|Write { prov: 1@6..11, sector: 9223372036854775807, hex: 3@32..34 }
B|write a.img 9223372036854775808 ff|usage 2 BadNumber
B|write a.img 0 -|usage 3 BadHex
B|write a.img 0|usage 3 OperandCount
B|write a.img 0 00 00|usage 5 OperandCount
B|write -v a.img 0 00|usage 1 UnknownOption
Z|write~a.img~0~|usage 3 BadHex
Z|write~a b~7~00|Write { prov: 1@6..9, sector: 7, hex: 3@12..14 }
B|flush a.img|Flush { prov: 1@6..11 }
B|flush -v a.img|usage 1 UnknownOption
B|flush -- a.img|Flush { prov: 2@9..14 }
B|flush|usage 1 OperandCount
B|flush a.img b.img|usage 3 OperandCount
B|list -v|usage 1 UnknownOption
B|list x|usage 2 OperandCount
B|list -|usage 2 OperandCount
B|list --|List
B|list -- --|usage 3 OperandCount
B|list --x|usage 1 UnknownOption
B|list^|usage 0 UnknownVerb
B|LIST|usage 0 UnknownVerb
B|list#|usage 0 UnknownVerb
B|list #|usage 2 OperandCount
Z|list|List
Z|list~|usage 2 OperandCount
B|fill a.img 7 0 4095|Fill { prov: 1@5..10, seed: 7, start: 0, count: 4095 }
B|fill a.img 18446744073709551615 9223372036854775807 9223372036854775807|Fill { prov: 1@5..10, seed: 18446744073709551615, start: 9223372036854775807, count: 9223372036854775807 }
B|fill a.img 18446744073709551616 0 1|usage 2 BadNumber
B|fill a.img 0 9223372036854775808 1|usage 3 BadNumber
B|fill a.img 0 0 9223372036854775808|usage 4 BadNumber
B|fill a.img 0 0 0|usage 4 BadNumber
B|fill a.img x y 0|usage 2 BadNumber
B|fill a.img 0 y 0|usage 3 BadNumber
B|fill a.img 0 0 257|Fill { prov: 1@5..10, seed: 0, start: 0, count: 257 }
B|fill a.img 0 0|usage 4 OperandCount
B|fill a.img 0 0 1 2|usage 6 OperandCount
B|fill -v a.img 0 0 1|usage 1 UnknownOption
B|fill|usage 1 OperandCount
B|sum a.img 0 4095|Sum { prov: 1@4..9, start: 0, count: 4095 }
B|sum a.img 9223372036854775807 9223372036854775807|Sum { prov: 1@4..9, start: 9223372036854775807, count: 9223372036854775807 }
B|sum a.img 9223372036854775808 1|usage 2 BadNumber
B|sum a.img 0 9223372036854775808|usage 3 BadNumber
B|sum a.img 0 0|usage 3 BadNumber
B|sum a.img x 0|usage 2 BadNumber
B|sum a.img 0|usage 3 OperandCount
B|sum a.img 0 1 2|usage 5 OperandCount
B|sum -r a.img 0 1|usage 1 UnknownOption
B|eject -v a.img|usage 1 UnknownOption
B|eject|usage 1 OperandCount
B|eject a.img b.img|usage 3 OperandCount
B|x|usage 0 UnknownVerb
B|--|usage 0 UnknownVerb
B|script|usage 0 UnknownVerb
B|scripts a.img|usage 0 UnknownVerb
B|! dump|usage 0 NotText
B|dump a.img %|usage 0 NotText
Z|dump~!|usage 0 NotText
B| # !|none
B|#!|none
B|!|usage 0 NotText
Z|#!|usage 0 NotText
B|dump {}|Dump { prov: 1@5..300000 }
B|write a.img 0 {aa|Write { prov: 1@6..11, sector: 0, hex: 3@14..262156 }
B|write a.img 0 {aaa|usage 3 BadHex
B|write a.img 0 {aaaa|Write { prov: 1@6..11, sector: 0, hex: 3@14..262158 }
B|write a.img 0 {aaaaaa|usage 3 BadHex"#;
