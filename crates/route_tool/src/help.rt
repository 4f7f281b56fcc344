//! What the requests are.

/// The requests, a line each, with what each answers, and what NETWORK and HOP are.
pub const HELP: &'static str = "\
add NETWORK HOP: new, or old and the hop that the network had
del NETWORK: the hop of the route that is removed, or none
look ADDRESS: the hop of the longest network that holds the address, or none
find ADDRESS: that network and its hop, or none
below NETWORK: how many networks lie within this one, and then each with its hop
len: how many routes there are
list: how many routes there are, and then each
dump: each route as the line add NETWORK HOP, to be read again
load FILE: how many routes there are, after the file's lines: add, del and comments
open FILE: how many routes there are, with those of an image in place of its family's
write_ipv4 FILE: how many IPv4 routes there are, which are put into the file as an image
write_ipv6 FILE: how many IPv6 routes there are, which are put into the file as an image
aggregate: the least list of routes with the same answers, as list writes it
compact: how many routes there are, which are laid anew for faster lookups
help: these lines
#: nothing, whatever stands behind it
NETWORK is 10.0.0.0/8, 2001:db8::/32, an ADDRESS alone, or default for 0.0.0.0/0
HOP is a text, as via 192.0.2.1
";
