// The lettered models of document 01, each as it is lent: row by row.

// pit volume, loss and return flow, with the pit gauge: 3 × 3
pub const A: [u8; 9] = [2, 0, 1, 0, 1, 1, 1, 0, 0];

// the same without the gauge: 2 × 3
pub const B: [u8; 6] = [2, 0, 1, 0, 1, 1];

// 3 × 3
pub const C: [u8; 9] = [2, 0, 1, 1, 0, 0, 1, 0, 0];

// 1 × 1
pub const D: [u8; 1] = [4];

// 1 × 1
pub const F: [u8; 1] = [0];

// 2 × 2
pub const G: [u8; 4] = [1, 1, 1, 1];

// 2 × 2
pub const H: [u8; 4] = [1, 1, 1, 0];

// 2 × 2
pub const J: [u8; 4] = [1, 0, 4, 1];

// 3 × 3
pub const K: [u8; 9] = [3, 0, 1, 0, 3, 1, 1, 1, 0];
