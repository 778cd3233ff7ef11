//! Scripts with everything in them, answered by the program and by the plain one.
use crate::plays::are_alike;
use std::test::Fail;

/// A script for each kind with every command in it, with texts that are almost objects, and with the
/// refusals but `full`.
const MIXED: [(&[&str], &str); 4] = [
    (
        &["mem", "l1", "3", "1000"],
        "sample 0,0,0\nsample 1000,1000,1001\nsample 1,2\nsample\ncount 4\nfetch\nsample 1000,1000,1000\n\
         add 0 5 0,0,0\nsample 1,2,3\nsample 1,2,3,4\nadd 0 4294967295 1000,0,7\nadd 0 0 0,10,0\n\
         add 0 4294967296 0,0,0\nadd 0 +1 0,0,0\nadd 0 00 0,0,0\nadd 0 1 0,0,\nadd 0 1 ,0,0\nadd 0 1 0,-0,0\n\
         add 0 1 0,00,0\nadd 1 5 0,0,1\nadd 1 7 500,500,500\nadd 1 2 0,10,1\nadd 1 2 x\nadd 1 2 9,9,9\n\
         get 0 5\nget 0 6\nget 1 2\nget 0 05\nget 0\nget 4 2\ncount 0\ncount 1\ncount 2\ncount 0 0\ncount -0\n\
         range 0 0 0,0,0\nrange 0 10 0,0,0\nrange 0 9 0,0,0\nrange 1 4294967295 0,0,0\nrange 2 1 0,0,0\n\
         range 0 4294967296 0,0,0\nrange 0 1 0,0,1001\nnear 0 1 0,10,0\nnear 0 2 0,10,0\nnear 0 3 0,10,0\n\
         near 0 65536 0,10,0\nnear 0 1 5,5,5\nnear 2 1 0,0,0\nnear 0 0 0,0,0\nnear 0 65537 0,0,0\n\
         join 0 1 1\njoin 1 0 20\njoin 0 0 1017\njoin 0 0 1016\njoin 0 0 4294967295\njoin 0 2 5\njoin 2 0 5\n\
         join 2 2 5\njoin 4 0 x\njoin 0 4 x\njoin 0 0 x\ndrop 0 5\ndrop 0 5\ndrop 3 8\ndrop 4 8\ndrop 0 x\n\
         get 0 5\nrange 0 4294967295 0,0,0\nadd 0 5 1,1,1\nnear 0 9 0,0,0\n\n count 0\ncount 0 \nCOUNT 0\n\
         count 0\r\nlong 0\ncount 0",
    ),
    (
        &["mem", "linf", "2", "4294967295"],
        "add 0 1 0,4294967295\nadd 0 2 4294967295,0\nadd 0 3 4294967296,0\nadd 0 3 7\nadd 0 3 7,8\n\
         sample 0,0\nadd 1 3 8,7\nadd 1 4 4294967294,1\nadd 1 4 0,0\nrange 0 4294967295 0,0\n\
         range 0 4294967294 0,0\nrange 0 8 0,0\nrange 0 7 0,0\nnear 0 2 4294967295,4294967295\n\
         near 0 3 0,0\nnear 0 1 7,8\njoin 0 1 1\njoin 1 0 1\njoin 0 0 4294967295\njoin 0 0 4294967294\n\
         get 0 2\ndrop 0 1\nget 0 1\ncount 0\nnear 0 3 0,0\njoin 1 1 4294967286\njoin 1 1 4294967285\n",
    ),
    (
        &["mem", "hamming", "2"],
        "sample 0000\nsample 000\nsample 00000\nsample 00G0\nsample 00fF\nsample -\nadd 0 10 00ff\nadd 0 2 ff00\n\
         add 0 3 0000\nadd 0 4 000\nadd 0 4 000000\nadd 0 4 0x00\nadd 0 4 00fF\nadd 0 4 00,0\nadd 0 4 01fe\n\
         add 1 1 abcd\nadd 1 2 abdc\nget 0 10\nget 0 4\nget 1 2\nrange 0 0 00ff\nrange 0 1 00ff\nrange 0 2 00ff\n\
         range 0 1 00f0\nnear 0 1 00ff\nnear 0 2 00ff\nnear 0 4 ff00\nnear 0 5 ff00\nnear 1 1 ab00\n\
         join 0 0 1\njoin 0 0 2\njoin 0 1 2\njoin 0 1 1\njoin 1 1 1\njoin 1 1 0\nsample 0000\ndrop 0 10\n\
         drop 0 10\nnear 0 3 0000\ncount 0\n",
    ),
    (
        &["mem", "sets", "4294967295", "4"],
        "sample -\nsample 4294967294\nsample 4294967295\nsample 1,1\nsample 2,1\nsample 1,2,3,4,5\nadd 0 1 -\n\
         add 0 2 1,2,3,4\nadd 0 3 4294967294\nadd 0 4 4294967295\nadd 0 4 3,2\nadd 0 4 3,3\nadd 0 4 -,1\n\
         add 0 4 1,\nadd 0 4 --\nadd 0 4 \nadd 0 4 02\nadd 0 4 2,4,6,8\nadd 1 1 0\nadd 1 2 2,3\nadd 1 3 -\n\
         get 0 1\nget 0 2\nget 0 9\nrange 0 0 -\nrange 0 1 -\nrange 0 4 -\nrange 0 4 2,4,6,8\nrange 0 3 2,4,6,8\n\
         range 1 2 1,2,3,4\nnear 0 1 -\nnear 0 2 -\nnear 0 4 2,3\nnear 0 5 2,3\nnear 1 2 2,3\njoin 0 1 0\n\
         join 0 1 2\njoin 1 0 2\njoin 0 0 4\njoin 0 0 5\njoin 0 0 8\njoin 1 1 3\nsample -\ndrop 0 2\ndrop 0 2\n\
         get 0 2\njoin 0 0 8\ncount 0\ncount 1\n",
    ),
];

#[test]
fn mixed_scripts(rt: HostRuntime) -> Result<(), Fail> {
    for (texts, script) in MIXED {
        assert!(rt; are_alike(rt.alloc(), texts, script.as_bytes())?);
    }
    Ok(())
}
