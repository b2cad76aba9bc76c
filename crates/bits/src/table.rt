// The table that a root starts from (document 02, wish 6): for k from 256 to 1,023 its entry is the whole number e with e * e at
// most 256 k, and (e + 1) * (e + 1) above it. An entry is from 256 to 511, so that less 256 it is a byte. Eight are a row.
ghost use Rattle.std.specs.Prelude.{◌≡◌, ◌+◌, ◌*◌, ◌<◌, ◌≤◌};
ghost use Rattle.bits.specs.Table.{Entry};
ghost use Rattle.bits.specs.Clauses.{wrong_in, PastAll};

// The row of no number: there is none below 96 that the rows leave out.
fn no_row(i: u64) -> u64
    requires { PastAll 96 i }
    ensures { i < 96 → wrong_in 8 (256 + 8 * i) result ≡ 0 }
{
    0
}

// Eight entries, that of 256 + 8 i lowest. The program has these numbers as constant memory and reads one of them there, whereas
// it would copy a constant array to the stack at each call.
fn row(i: u64) -> u64
    requires { i < 96 }
    ensures { wrong_in 8 (256 + 8 * i) result ≡ 0 }
{
    match i {
        0 => 0x0302_0201_0100_0000,
        1 => 0x0706_0605_0504_0403,
        2 => 0x0b0a_0a09_0908_0807,
        3 => 0x0f0e_0e0d_0d0c_0c0b,
        4 => 0x1212_1111_1010_100f,
        5 => 0x1616_1515_1414_1313,
        6 => 0x1a19_1918_1817_1716,
        7 => 0x1d1d_1c1c_1b1b_1b1a,
        8 => 0x2120_2020_1f1f_1e1e,
        9 => 0x2424_2323_2322_2221,
        10 => 0x2827_2727_2626_2525,
        11 => 0x2b2b_2a2a_2a29_2928,
        12 => 0x2f2e_2e2d_2d2d_2c2c,
        13 => 0x3232_3131_3030_302f,
        14 => 0x3535_3534_3433_3332,
        15 => 0x3938_3837_3737_3636,
        16 => 0x3c3b_3b3b_3a3a_3939,
        17 => 0x3f3f_3e3e_3d3d_3d3c,
        18 => 0x4242_4141_4140_4040,
        19 => 0x4545_4544_4443_4343,
        20 => 0x4948_4847_4747_4646,
        21 => 0x4c4b_4b4b_4a4a_4949,
        22 => 0x4f4e_4e4e_4d4d_4c4c,
        23 => 0x5251_5151_5050_504f,
        24 => 0x5554_5454_5353_5352,
        25 => 0x5857_5757_5656_5655,
        26 => 0x5b5a_5a5a_5959_5958,
        27 => 0x5e5d_5d5d_5c5c_5b5b,
        28 => 0x6160_6060_5f5f_5e5e,
        29 => 0x6363_6362_6262_6161,
        30 => 0x6666_6665_6565_6464,
        31 => 0x6969_6868_6867_6767,
        32 => 0x6c6c_6b6b_6b6a_6a6a,
        33 => 0x6f6e_6e6e_6d6d_6d6c,
        34 => 0x7271_7171_7070_706f,
        35 => 0x7474_7473_7373_7272,
        36 => 0x7777_7676_7675_7575,
        37 => 0x7a79_7979_7878_7877,
        38 => 0x7c7c_7c7b_7b7b_7a7a,
        39 => 0x7f7f_7e7e_7e7d_7d7d,
        40 => 0x8281_8181_8080_8080,
        41 => 0x8484_8483_8383_8282,
        42 => 0x8787_8686_8685_8585,
        43 => 0x8a89_8989_8888_8887,
        44 => 0x8c8c_8c8b_8b8b_8a8a,
        45 => 0x8f8f_8e8e_8e8d_8d8d,
        46 => 0x9191_9190_9090_908f,
        47 => 0x9494_9393_9392_9292,
        48 => 0x9696_9696_9595_9594,
        49 => 0x9999_9898_9897_9797,
        50 => 0x9b9b_9b9b_9a9a_9a99,
        51 => 0x9e9e_9d9d_9d9c_9c9c,
        52 => 0xa0a0_a0a0_9f9f_9f9e,
        53 => 0xa3a3_a2a2_a2a1_a1a1,
        54 => 0xa5a5_a5a4_a4a4_a3a3,
        55 => 0xa8a7_a7a7_a7a6_a6a6,
        56 => 0xaaaa_aaa9_a9a9_a8a8,
        57 => 0xadac_acac_abab_abaa,
        58 => 0xafaf_aeae_aead_adad,
        59 => 0xb1b1_b1b0_b0b0_b0af,
        60 => 0xb4b3_b3b3_b2b2_b2b2,
        61 => 0xb6b6_b5b5_b5b5_b4b4,
        62 => 0xb8b8_b8b7_b7b7_b7b6,
        63 => 0xbbba_baba_b9b9_b9b9,
        64 => 0xbdbd_bcbc_bcbb_bbbb,
        65 => 0xbfbf_bfbe_bebe_bdbd,
        66 => 0xc1c1_c1c1_c0c0_c0c0,
        67 => 0xc4c3_c3c3_c3c2_c2c2,
        68 => 0xc6c6_c5c5_c5c5_c4c4,
        69 => 0xc8c8_c8c7_c7c7_c7c6,
        70 => 0xcbca_caca_c9c9_c9c9,
        71 => 0xcdcc_cccc_cccb_cbcb,
        72 => 0xcfcf_cece_cece_cdcd,
        73 => 0xd1d1_d1d0_d0d0_d0cf,
        74 => 0xd3d3_d3d3_d2d2_d2d1,
        75 => 0xd6d5_d5d5_d4d4_d4d4,
        76 => 0xd8d7_d7d7_d7d6_d6d6,
        77 => 0xdada_d9d9_d9d9_d8d8,
        78 => 0xdcdc_dbdb_dbdb_dada,
        79 => 0xdede_dedd_dddd_dddc,
        80 => 0xe0e0_e0e0_dfdf_dfde,
        81 => 0xe2e2_e2e2_e1e1_e1e1,
        82 => 0xe5e4_e4e4_e3e3_e3e3,
        83 => 0xe7e6_e6e6_e6e5_e5e5,
        84 => 0xe9e8_e8e8_e8e7_e7e7,
        85 => 0xebeb_eaea_eaea_e9e9,
        86 => 0xeded_ecec_ecec_ebeb,
        87 => 0xefef_eeee_eeee_eded,
        88 => 0xf1f1_f1f0_f0f0_f0ef,
        89 => 0xf3f3_f3f2_f2f2_f2f1,
        90 => 0xf5f5_f5f4_f4f4_f4f3,
        91 => 0xf7f7_f7f6_f6f6_f6f5,
        92 => 0xf9f9_f9f8_f8f8_f8f7,
        93 => 0xfbfb_fbfa_fafa_faf9,
        94 => 0xfdfd_fdfc_fcfc_fcfb,
        95 => 0xffff_fffe_fefe_fefd,
        _ => no_row(i),
    }
}

// The entry of k.
pub fn entry(k: u64) -> u64
    requires { (256 ≤ k) × (k < 1024) }
    ensures { Entry k result }
{
    256 + (row(k / 8 - 32) >> (k % 8 * 8)) % 256
}
