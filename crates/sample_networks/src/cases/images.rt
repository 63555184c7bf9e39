// Cases that the runner of polis_cli's tests reads.

/// Calls that store code as an image, and that run an image.
pub const IMAGES: &str = r#"
:: given
:: note Runs of the lamp by its image with a change. One change promises 4,294,967,295
instructions where six are there, and the last one makes the image longer.
:: file net @lamp.net
:: file trc press
:: call run net trc p --image o.img
:: case byte 51: 01
:: change o.img @lamp.img \x02\x01\x02 => \x02\x01\x01
:: shows Refused refused o.img image wrong lamp_ctl press ; s=off
:: case bytes 28: 00 00 00 00
:: change o.img @lamp.img \x00\x00\x00\x05 => \x00\x00\x00\x00
:: shows Refused refused o.img image byte 28
:: case byte 4: 02
:: change o.img @lamp.img \x01 => \x02
:: shows Refused refused o.img image byte 4
:: case byte 5: 00
:: change o.img @lamp.img \x01\x01 => \x01\x00
:: shows Refused refused o.img image byte 5
:: case byte 5: 02
:: change o.img @lamp.img \x01\x01 => \x01\x02
:: shows Refused refused o.img image byte 56
:: case byte 6: 19
:: change o.img @lamp.img \x08 => \x19
:: shows Refused refused o.img image byte 6
:: case byte 7: 31
:: change o.img @lamp.img l => 1
:: shows Refused refused o.img image byte 7
:: case byte 7: 6b
:: change o.img @lamp.img l => k
:: shows Refused refused o.img image shape 0
:: case byte 16: 22
:: change o.img @lamp.img \x02\x02 => \x02"
:: shows Refused refused o.img image byte 16
:: case bytes 22: 00 00 00 00
:: change o.img @lamp.img \x00\x00\x00\x06 => \x00\x00\x00\x00
:: shows Refused refused o.img image byte 22
:: case bytes 22: ff ff ff ff
:: change o.img @lamp.img \x00\x00\x00\x06 => \xff\xff\xff\xff
:: shows Refused refused o.img image byte 56
:: case byte 31: 06
:: change o.img @lamp.img \x05 => \x06
:: shows Refused refused o.img image byte 28
:: case byte 48: 02
:: change o.img @lamp.img \x02\x00\x01 => \x02\x00\x02
:: shows Refused refused o.img image byte 48
:: case byte 51: 03
:: change o.img @lamp.img \x02\x01\x02 => \x02\x01\x03
:: shows Refused refused o.img image byte 51
:: case byte 55: 03
:: change o.img @lamp.img \x02\x01\x00 => \x02\x01\x03
:: shows Refused refused o.img image byte 55
:: case byte 56: 07
:: file o.img @lamp.img
:: repeat o.img 1 \x07\
:: shows Refused refused o.img image byte 56
:: given
:: note The image of another network, and what is no whole image.
:: call run net trc p --image o.img
:: case the image of another network
:: file net @join.net
:: file trc
:: file o.img @lamp.img
:: shows Refused refused o.img image shape 0
:: case an image without its last byte
:: file net @lamp.net
:: file trc press
:: file o.img
PIMG\x01\x01\x08lamp_ctl\x02\x02\x02\x03\x02\x03\x02\
\x00\x00\x00\x06\
\x01\x00\x00\x00\x00\x05\x00\x00\x00\x01\
\x01\x01\x00\x00\x00\x02\x00\x00\x00\x05\
\x02\x00\x01\x02\x01\x02\x02\x02\x01\
:: shows Refused refused o.img image byte 55
:: case an empty image
:: file net @lamp.net
:: file trc press
:: file o.img
:: shows Refused refused o.img image byte 0
:: given
:: note Runs of the lamp on one press by its image. By two workers the journal has its least
stamps, too.
:: file net @lamp.net
:: file trc press
:: file o.img @lamp.img
:: case by its image
:: call run net trc p --image o.img
:: shows Done
entries 2 complete
lost 0
gathered 0 adopted 0
machine lamp_ctl code 6 tries 1 steps 6
:: holds p.out light
:: holds p.jnl @pressed.jnl
:: case within a limit, by one worker
:: call run net trc p --limit 9 --image o.img --workers 1
:: shows Done
entries 2 complete
lost 0
gathered 0 adopted 0
machine lamp_ctl code 6 tries 1 steps 6
:: holds p.out light
:: holds p.jnl @pressed.jnl
:: case within a limit of as many entries
:: call run net trc p --image o.img --limit 2
:: shows Done
entries 2 complete
lost 0
gathered 0 adopted 0
machine lamp_ctl code 6 tries 1 steps 6
:: holds p.out light
:: holds p.jnl @pressed.jnl
:: case by two workers
:: call run net trc p --workers 2 --image o.img
:: shows Done
entries 2 complete
lost 0
gathered 2 adopted 2
machine lamp_ctl code 6 tries 1 steps 6
:: holds p.out light
:: holds p.jnl @pressed.jnl
:: given
:: note Calls that fail.
:: file net @lamp.net
:: file trc press
:: file o.img @lamp.img
:: case no name of an image
:: call run net trc p --image
:: shows Usage usage
:: case an empty name
:: call run net trc p --image ""
:: shows Usage usage
:: case two images
:: call run net trc p --image o.img --image o.img
:: shows Usage usage
:: case a word that is none
:: call run net trc p --images o.img
:: shows Usage usage
:: case an image of no stem
:: call image net
:: shows Usage usage
:: case an empty stem
:: call image net ""
:: shows Usage usage
:: case a limit of an image
:: call image net p --limit 5
:: shows Usage usage
:: case the image fails
:: fail 1
:: call image net p
:: shows WriteFault write fault p.img
:: faults 0 1
:: case the line of the image fails
:: fail 2
:: call image net p
:: shows WriteFault
:: holds p.img @lamp.img
:: faults 0 1
:: case no network to compile
:: call image none p
:: shows Refused refused none absent
:: case an image that isn't there
:: call run net trc p --image none
:: shows Refused refused none absent
:: case the image to run fails
:: fail 2
:: call run net trc p --image o.img
:: shows ReadFault read fault o.img
:: faults 1 0
:: given
:: note What is stored.
:: case the image of the lamp
:: file net @lamp.net
:: file trc press
:: file o.img
:: call image net o
:: shows Done image 56 bytes
:: holds o.img @lamp.img
"#;
